// The calls that bring in a day's records, and end them.
ghost use Rattle.std.specs.Prelude.{◌≡◌};
ghost use Rattle.book.specs.Books.{admitted, entered, held};
ghost use Rattle.day.specs.Calls.{close_gives, enter_gives, with_counts};
ghost use Rattle.day.specs.Memory.{memory};

use crate::refused::Refused;
use crate::state::{Closed, DayIn, Numbers, Open};
use book::book::Book;
use closing::close::close as close_book;
use codes::table::Table;
use dayfile::record::Record;
use decoding::decode::decode_record;
use faults::fault::Fault;
use ledger::note::Note;

// The same numbers, with the counts of the book's records.
fn with_counts(numbers: Numbers, book: &Book) -> Numbers
    ensures { result ≡ with_counts numbers (held book.now) }
{
    Numbers {
        counts: book.counts(),
        ..numbers
    }
}

// Takes the record that the bytes say into the book, unless there is a reason against it.
fn admit(book: &mut Book, bytes: &[u8]) -> Result<Record, Fault>
    ensures value { result ≡ admitted (held book.old) bytes.now }
    ensures after { held book.new ≡ entered (held book.old) (admitted (held book.old) bytes.now) }
{
    let item = decode_record(bytes)?;
    book.enter_record(item)?;
    Ok(item)
}

// Enters a record.
pub fn enter(
    day: Open,
    bytes: &[u8],
    book: &mut Book,
    table: &Table,
    ledger: &[Note],
) -> Result<Open, Refused<Open>>
    ensures { (result, memory (held book.new) table.now ledger.now) ≡ enter_gives day (memory (held book.old) table.now ledger.now) bytes.now }
{
    let day = day.checked_with(book, table, ledger)?;
    match admit(book, bytes) {
        Ok(_) => Ok(DayIn::new(with_counts(day.into_numbers(), book))),
        Err(fault) => Err(Refused { day, fault }),
    }
}

// Ends the records with the end record.
pub fn close(
    day: Open,
    bytes: &[u8],
    book: &Book,
    table: &Table,
    ledger: &[Note],
) -> Result<Closed, Refused<Open>>
    ensures { (result, memory (held book.now) table.now ledger.now) ≡ close_gives day (memory (held book.now) table.now ledger.now) bytes.now }
{
    let day = day.checked_with(book, table, ledger)?;
    match close_book(book, bytes) {
        Ok(()) => Ok(DayIn::new(day.into_numbers())),
        Err(fault) => Err(Refused { day, fault }),
    }
}
