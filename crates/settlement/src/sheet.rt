// The sheet of an hour.
ghost use Rattle.std.specs.Prelude.{◌≡◌, true, false, if◌then◌else◌, Some, None};
ghost use Rattle.book.specs.Books.{held};
ghost use Rattle.book.specs.Soundness.{sound_records};
ghost use Rattle.amounts.specs.Amounts.{lacking, lacks};
ghost use Rattle.settlement.specs.Days.{Filled, no_purchases, outcome, sheet_refusal};
ghost use Rattle.settlement.specs.Grown.{Grown, Room, RoomIn, RowAdded};
ghost use Rattle.settlement.specs.Sheets.{sheet};

use crate::priced::{PricedBook, PricedHour, no_purchases};
use book::book::Book;
use codes::code::{Basis, CODES, Code};
use codes::table::Table;
use faults::fault::{Fault, Place};
use faults::refusal::Refusal;
use sharing::rule::Sharing;

impl<'a> PricedHour<'a> {
    // Adds the row of a code.
    fn add_code<R: Sharing>(&self, rule: &R, code: Code, table: &mut Table)
        requires borne { lacks (held self.now.day.now.book.now) self.now.hour code ≡ false }
        requires room { RoomIn table.old code }
        ensures { RowAdded table.old table.new code (sheet (R.Sharing.parts rule.now) (held self.now.day.now.book.now) self.now.hour code) }
    {
        match code.row().basis {
            Basis::Own => self.add_own(code, table),
            Basis::Purchases => self.add_shared(rule, code, table),
        }
    }

    // Adds the sheet of the hour to a table.
    pub(crate) fn add_sheet<R: Sharing>(&self, rule: &R, table: &mut Table)
        requires borne { lacking (held self.now.day.now.book.now) self.now.hour ≡ false }
        requires room { Room table.old }
        ensures { Grown table.old table.new (sheet (R.Sharing.parts rule.now) (held self.now.day.now.book.now) self.now.hour) }
    {
        for row in &CODES {
            self.add_code(rule, row.code, table);
        }
    }

    // Fills a table with the sheet of the hour, or refuses the hour for want of purchases.
    fn fill<R: Sharing>(&self, rule: &R, table: &mut Table) -> Result<(), Fault>
        ensures value { result ≡ outcome (if lacking (held self.now.day.now.book.now) self.now.hour then Some (no_purchases self.now.hour) else None) }
        ensures after { Filled (if lacking (held self.now.day.now.book.now) self.now.hour then Some (no_purchases self.now.hour) else None) table.old table.new (sheet (R.Sharing.parts rule.now) (held self.now.day.now.book.now) self.now.hour) }
    {
        if self.is_lacking() {
            return Err(no_purchases(self.hour));
        }
        table.clear();
        self.add_sheet(rule, table);
        Ok(())
    }
}

// Fills a table with the sheet of an hour under a rule, day items 0; or refuses, and leaves the table as it was. Callers hold
// a `Book` that they may write to, so they say that it is sound; within, a `PricedBook` carries it.
pub fn fill_sheet<R: Sharing>(
    book: &Book,
    hour: u8,
    rule: &R,
    table: &mut Table,
) -> Result<(), Fault>
    requires { sound_records (held book.now) ≡ true }
    ensures value { result ≡ outcome (sheet_refusal (held book.now) hour) }
    ensures after { Filled (sheet_refusal (held book.now) hour) table.old table.new (sheet (R.Sharing.parts rule.now) (held book.now) hour) }
{
    if hour == 0 {
        return Err(Fault::new(Refusal::OutOfRange, Place::new(0, 0, hour)));
    }
    if hour > book.heading.hours {
        return Err(Fault::new(Refusal::AboveHeading, Place::new(0, 0, hour)));
    }
    PricedBook::of(book)?.hour(hour).fill(rule, table)
}
