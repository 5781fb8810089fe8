// The two calls that begin a day.
ghost use Rattle.std.specs.Prelude.{◌≡◌};
ghost use Rattle.book.specs.Books.{held};
ghost use Rattle.day.specs.Calls.{first_numbers, load_answer, load_gives, open_gives};
ghost use Rattle.day.specs.Memory.{empty_table, memory};
ghost use Rattle.ledger.specs.Notes.{cleared};
ghost use Rattle.loading.specs.Loading.{file_records, load_leaves};

use crate::issue_number::IssueNumber;
use crate::state::{Closed, DayIn, Numbers, Open};
use book::book::Book;
use codes::table::Table;
use decoding::decode::decode_heading;
use faults::fault::Fault;
use ledger::note::{Note, clear};
use loading::load::load as load_book;

// The numbers of a day with the book's records, and no note.
fn first_numbers(book: &Book) -> Numbers
    ensures { result ≡ first_numbers (held book.now) }
{
    Numbers {
        heading: book.heading,
        counts: book.counts(),
        notes: 0,
        issue: IssueNumber::Initial,
    }
}

// Empties the table and the ledger.
fn empty(table: &mut Table, ledger: &mut [Note])
    ensures table { table.new ≡ empty_table }
    ensures ledger { ledger.new ≡ cleared ledger.old }
{
    table.clear();
    clear(ledger);
}

// Opens a day with a heading record, and empties all memory; or refuses, and leaves memory as it was.
pub fn open(
    bytes: &[u8],
    book: &mut Book,
    table: &mut Table,
    ledger: &mut [Note],
) -> Result<Open, Fault>
    ensures { (result, memory (held book.new) table.new ledger.new) ≡ open_gives (memory (held book.old) table.old ledger.old) bytes.now }
{
    let heading = decode_heading(bytes)?;
    book.clear(heading);
    empty(table, ledger);
    Ok(DayIn::new(first_numbers(book)))
}

// A closed day with the records of a file; or no records, where the file is refused.
fn load_records(file: &[u8], book: &mut Book) -> Result<Closed, Fault>
    ensures value { result ≡ load_answer (file_records file.now) }
    ensures after { held book.new ≡ load_leaves (held book.old) file.now }
{
    load_book(book, file)?;
    Ok(DayIn::new(first_numbers(book)))
}

// Loads a day file: opens a day with its first record, enters each record after it and closes the day with the end record.
// A refused load leaves all memory empty.
pub fn load(
    file: &[u8],
    book: &mut Book,
    table: &mut Table,
    ledger: &mut [Note],
) -> Result<Closed, Fault>
    ensures { (result, memory (held book.new) table.new ledger.new) ≡ load_gives (memory (held book.old) table.old ledger.old) file.now }
{
    empty(table, ledger);
    load_records(file, book)
}
