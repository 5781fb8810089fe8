// The call that corrects a reading.
ghost use Rattle.std.specs.Prelude.{◌≡◌};
ghost use Rattle.book.specs.Books.{held};
ghost use Rattle.correcting.specs.Readings.{corrected, correction};
ghost use Rattle.day.specs.Calls.{correct_gives};
ghost use Rattle.day.specs.Memory.{memory};

use crate::refused::Refused;
use crate::state::Closed;
use book::book::Book;
use codes::table::Table;
use correcting::correct::correct as correct_book;
use correcting::reading::Reading;
use faults::fault::Fault;
use ledger::note::Note;

// Puts the reading into its position, unless there is a reason against it.
fn reread(book: &mut Book, reading: Reading) -> Result<Reading, Fault>
    ensures value { result ≡ correction (held book.old) reading }
    ensures after { held book.new ≡ corrected (held book.old) (correction (held book.old) reading) }
{
    correct_book(book, reading)?;
    Ok(reading)
}

// Puts another reading in the place of the one that a position has.
pub fn correct(
    day: Closed,
    reading: Reading,
    book: &mut Book,
    table: &Table,
    ledger: &[Note],
) -> Result<Closed, Refused<Closed>>
    ensures { (result, memory (held book.new) table.now ledger.now) ≡ correct_gives day (memory (held book.old) table.now ledger.now) reading }
{
    let day = day.checked_with(book, table, ledger)?;
    match reread(book, reading) {
        Ok(_) => Ok(day),
        Err(fault) => Err(Refused { day, fault }),
    }
}
