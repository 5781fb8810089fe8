// The call that takes an issued day back, to be corrected and settled again.
ghost use Rattle.std.specs.Prelude.{◌≡◌};
ghost use Rattle.book.specs.Books.{held};
ghost use Rattle.day.specs.Calls.{reopen_gives};
ghost use Rattle.day.specs.Memory.{memory};

use crate::refused::Refused;
use crate::state::{Closed, DayIn, Issued, Numbers};
use book::book::Book;
use codes::table::Table;
use faults::fault::Fault;
use faults::refusal::Refusal;
use ledger::note::Note;

// Reopens the day, unless its last issue was made.
pub fn reopen(
    day: Issued,
    book: &Book,
    table: &Table,
    ledger: &[Note],
) -> Result<Closed, Refused<Issued>>
    ensures { (result, memory (held book.now) table.now ledger.now) ≡ reopen_gives day (memory (held book.now) table.now ledger.now) }
{
    let day = day.checked_with(book, table, ledger)?;
    match day.numbers.issue.following() {
        Some(issue) => Ok(DayIn::new(Numbers {
            issue,
            ..day.into_numbers()
        })),
        None => Err(Refused {
            day,
            fault: Fault::plain(Refusal::NoIssueLeft),
        }),
    }
}
