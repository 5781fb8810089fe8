// The call that settles a day.
ghost use Rattle.std.specs.Prelude.{◌≡◌, true, Some, None, MatchResult};
ghost use Rattle.book.specs.Books.{held};
ghost use Rattle.book.specs.Soundness.{sound_records};
ghost use Rattle.settlement.specs.Days.{day_cell, settle_refusal};
ghost use Rattle.day.specs.Calls.{settle_gives};
ghost use Rattle.day.specs.Memory.{memory};
ghost use Rattle.day.specs.Tables.{filled_with};

use crate::refused::Refused;
use crate::state::{Closed, DayIn, Settled};
use book::book::Book;
use codes::table::Table;
use faults::fault::Fault;
use ledger::note::Note;
use settlement::settle::settle as settle_book;
use sharing::rule::Sharing;

// Fills the table of the day, or says why not, and leaves it as it was. Apart from `fill_page`: another call, other laws.
fn fill_day<R: Sharing>(book: &Book, rule: &R, table: &mut Table) -> Result<(), Fault>
    requires { sound_records (held book.now) ≡ true }
    ensures value { MatchResult result (λ _. settle_refusal (held book.now) ≡ None) (λ fault. settle_refusal (held book.now) ≡ Some fault) }
    ensures after { table.new ≡ filled_with (settle_refusal (held book.now)) table.old (day_cell (R.Sharing.parts rule.now) (held book.now)) }
{
    let answer = settle_book(book, rule, table);
    // How many cells it has, for the proof.
    let _ = table.as_slice();
    answer
}

// Settles the day under a rule.
pub fn settle<R: Sharing>(
    day: Closed,
    rule: &R,
    book: &Book,
    table: &mut Table,
    ledger: &[Note],
) -> Result<Settled, Refused<Closed>>
    ensures { (result, memory (held book.now) table.new ledger.now) ≡ settle_gives (R.Sharing.parts rule.now) day (memory (held book.now) table.old ledger.now) }
{
    let day = day.checked_with(book, table, ledger)?;
    match fill_day(book, rule, table) {
        Ok(()) => Ok(DayIn::new(day.into_numbers())),
        Err(fault) => Err(Refused { day, fault }),
    }
}
