// Settling a day.
ghost use Rattle.std.specs.Prelude.{◌≡◌, true, None};
ghost use Rattle.book.specs.Books.{held};
ghost use Rattle.book.specs.Soundness.{sound_records};
ghost use Rattle.codes.specs.Cells.{empty_cells};
ghost use Rattle.amounts.specs.Amounts.{first_lacking, scopes};
ghost use Rattle.settlement.specs.Days.{Filled, Holds, day_cell, lacking_fault, outcome, settle_refusal, sheets};

use crate::items::Penalties;
use crate::priced::{PricedBook, no_purchases};
use book::book::Book;
use codes::table::Table;
use faults::fault::Fault;
use sharing::rule::Sharing;

impl<'a> PricedBook<'a> {
    // The first hour with an amount to share and nobody to share it by.
    fn first_lacking(&'a self) -> Option<u8>
        ensures { result ≡ first_lacking (held self.now.book.now) }
    {
        // Half-open: the library has no law of a chain over `1..=`.
        (1..self.book.heading.hours + 1).find(|hour| self.hour(*hour).is_lacking())
    }

    // Adds the sheets of all hours to an empty table.
    fn add_sheets<R: Sharing>(&'a self, rule: &R, table: &mut Table)
        requires borne { first_lacking (held self.now.book.now) ≡ None }
        requires empty { table.old.cells ≡ empty_cells }
        ensures { Holds table.new (sheets (R.Sharing.parts rule.now) (held self.now.book.now) (scopes self.now.book.now.heading)) }
    {
        for hour in 1..=self.book.heading.hours {
            self.hour(hour).add_sheet(rule, table);
        }
    }

    // Fills the table of the day, or refuses the day for want of purchases.
    fn settle<R: Sharing>(&'a self, rule: &R, table: &mut Table) -> Result<(), Fault>
        ensures value { result ≡ outcome (lacking_fault (first_lacking (held self.now.book.now))) }
        ensures after { Filled (lacking_fault (first_lacking (held self.now.book.now))) table.old table.new (day_cell (R.Sharing.parts rule.now) (held self.now.book.now)) }
    {
        if let Some(hour) = self.first_lacking() {
            return Err(no_purchases(hour));
        }
        table.clear();
        self.add_sheets(rule, table);
        Penalties::of(self).add_items(table);
        Ok(())
    }
}

// Fills the table of a day under a rule; or refuses, and leaves the table as it was. Callers hold a `Book` that they may
// write to, so they say that it is sound; within, a `PricedBook` carries it.
pub fn settle<R: Sharing>(book: &Book, rule: &R, table: &mut Table) -> Result<(), Fault>
    requires { sound_records (held book.now) ≡ true }
    ensures value { result ≡ outcome (settle_refusal (held book.now)) }
    ensures after { Filled (settle_refusal (held book.now)) table.old table.new (day_cell (R.Sharing.parts rule.now) (held book.now)) }
{
    PricedBook::of(book)?.settle(rule, table)
}
