// What is printed of a day file.
ghost use Rattle.std.specs.Prelude.{◌≡◌, ◌≤◌, true, length};
ghost use Rattle.book.specs.Books.{held};
ghost use Rattle.book.specs.Soundness.{sound_records};
ghost use Rattle.codes.specs.Cells.{cell_count};
ghost use Rattle.settlement.specs.Days.{settle_refusal};
ghost use Rattle.text.specs.Lines.{refused_room, refused_text};
ghost use Rattle.text.specs.Written.{left_if_fits};
ghost use Rattle.day_text.specs.Texts.{printed_text, settled_text, text_room};

use crate::first_issue::{issue_first, state_first};
use book::book::Book;
use codes::table::{CELLS, Table};
use faults::fault::Fault;
use ledger::note::Note;
use loading::load::load;
use settlement::settle::settle;
use sharing::running::Running;
use text::refused::put_refused;

// Room for the notes of one issue: at most one for each cell.
pub const LEDGER_ROOM: usize = CELLS;
// Room for the text: a statement with a note for each cell.
pub const TEXT_ROOM: usize = 35 + 27 * CELLS;

// The line of a refusal, for which there is room.
pub fn put_fault(buffer: &mut [u8], fault: &Fault) -> usize
    requires { refused_room ≤ length buffer.old }
    ensures answer { result ≡ length (refused_text fault.now) }
    ensures after { buffer.new ≡ left_if_fits (refused_text fault.now) buffer.old }
    ensures within { result ≤ length buffer.old }
{
    put_refused(buffer, fault).unwrap()
}

// Settles the book under the running rule, issues the table and states the issue.
fn put_settled(book: &Book, table: &mut Table, ledger: &mut [Note], buffer: &mut [u8]) -> usize
    requires sound { sound_records (held book.now) ≡ true }
    requires ledger { cell_count ≤ length ledger.old }
    requires buffer { text_room ≤ length buffer.old }
    ensures answer { result ≡ length (settled_text (held book.now) (settle_refusal (held book.now))) }
    ensures after { buffer.new ≡ left_if_fits (settled_text (held book.now) (settle_refusal (held book.now))) buffer.old }
    ensures within { result ≤ length buffer.old }
{
    match settle(book, &Running, table) {
        Ok(()) => {
            let notes = issue_first(ledger, table);
            state_first(&book.heading, ledger, notes, buffer)
        }
        Err(fault) => put_fault(buffer, &fault),
    }
}

// The same of a file. Slices are lent here and above, as a proof knows an array's length only as a slice's; the room that is
// asked is what the arrays of `print_day` have.
fn put_printed(
    book: &mut Book,
    table: &mut Table,
    ledger: &mut [Note],
    buffer: &mut [u8],
    file: &[u8],
) -> usize
    requires ledger { cell_count ≤ length ledger.old }
    requires buffer { text_room ≤ length buffer.old }
    ensures answer { result ≡ length (printed_text file.now) }
    ensures after { buffer.new ≡ left_if_fits (printed_text file.now) buffer.old }
    ensures within { result ≤ length buffer.old }
{
    match load(book, file) {
        Ok(()) => put_settled(book, table, ledger, buffer),
        Err(fault) => put_fault(buffer, &fault),
    }
}

// Loads a day file, settles it under the running rule, issues it, and writes the statement of that issue; or, where the file
// or the settlement is refused, the line of the refusal. The answer is the length of the text. Nothing else can go wrong:
// the ledger has room for every note, and the buffer for every text.
pub fn print_day(
    book: &mut Book,
    table: &mut Table,
    ledger: &mut [Note; LEDGER_ROOM],
    buffer: &mut [u8; TEXT_ROOM],
    file: &[u8],
) -> usize
    ensures answer { result ≡ length (printed_text file.now) }
    ensures after { buffer.new ≡ left_if_fits (printed_text file.now) buffer.old }
    ensures within { result ≤ text_room }
{
    put_printed(book, table, ledger, buffer, file)
}
