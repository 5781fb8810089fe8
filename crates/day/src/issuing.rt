// The calls that add the notes of a settled day to the ledger, and state them.
ghost use Rattle.std.specs.Prelude.{◌≡◌, ◌+◌, ◌^◌, ◌<◌, ◌≤◌, true, length, take, IfOk, MatchResult};
ghost use Rattle.book.specs.Books.{held};
ghost use Rattle.ledger.specs.Issues.{issue_answer, issue_leaves, new_notes};
ghost use Rattle.ledger.specs.Notes.{sound_notes, within_limit};
ghost use Rattle.statement.specs.Statements.{statement_answer, statement_leaves, statement_text};
ghost use Rattle.day.specs.Calls.{issue_gives, made_before, made_with, statement_gives, with_notes};
ghost use Rattle.day.specs.IssueNumbers.{issue_number};
ghost use Rattle.day.specs.Memory.{memory};

use crate::refused::Refused;
use crate::state::{DayIn, Issued, Numbers, Settled};
use book::book::Book;
use codes::table::Table;
use faults::fault::Fault;
use ledger::issue::issue as add_notes;
use ledger::note::Note;
use statement::issued::statement as put_statement;

// The same numbers, with so many notes more.
fn with_notes(numbers: Numbers, added: usize) -> Numbers
    requires { numbers.notes + added < 2 ^ 64 }
    ensures { result ≡ with_notes numbers added }
{
    Numbers {
        notes: numbers.notes + added,
        ..numbers
    }
}

// Adds the notes of the day's issue, unless there is too little room. Answers how many these are.
fn add(numbers: &Numbers, table: &Table, ledger: &mut [Note]) -> Result<usize, Fault>
    requires limited { within_limit table.now ≡ true }
    requires notes { sound_notes ledger.old numbers.now.notes (made_before numbers.now) ≡ true }
    ensures value { result ≡ issue_answer ledger.old numbers.now.notes (new_notes ledger.old numbers.now.notes (issue_number numbers.now.issue) table.now) }
    ensures after { ledger.new ≡ issue_leaves ledger.old numbers.now.notes (new_notes ledger.old numbers.now.notes (issue_number numbers.now.issue) table.now) }
    ensures ends { MatchResult result (λ count. count ≡ length (new_notes ledger.old numbers.now.notes (issue_number numbers.now.issue) table.now)) (λ _. ledger.new ≡ ledger.old) }
    ensures room { IfOk result (λ count. numbers.now.notes + count ≤ length ledger.old) }
{
    add_notes(ledger, numbers.notes, numbers.issue.number(), table)
}

// Issues the day: a note for each cell that differs from the sum of its earlier notes. Answers how many these are.
pub fn issue(
    day: Settled,
    book: &Book,
    table: &Table,
    ledger: &mut [Note],
) -> Result<(Issued, usize), Refused<Settled>>
    ensures { (result, memory (held book.now) table.now ledger.new) ≡ issue_gives day (memory (held book.now) table.now ledger.old) }
{
    let day = day.checked_with(book, table, ledger)?;
    match add(&day.numbers, table, ledger) {
        Ok(added) => Ok((DayIn::new(with_notes(day.into_numbers(), added)), added)),
        Err(fault) => Err(Refused { day, fault }),
    }
}

// Writes the text of an issue, if it was made and the text fits. Answers how long it is. The issue is a number: one that
// names no issue is refused.
fn put(numbers: &Numbers, issue: u8, ledger: &[Note], buffer: &mut [u8]) -> Result<usize, Fault>
    requires { sound_notes ledger.now numbers.now.notes (made_with numbers.now) ≡ true }
    ensures value { result ≡ statement_answer numbers.now.heading (take numbers.now.notes ledger.now) (made_with numbers.now) issue buffer.old }
    ensures after { buffer.new ≡ statement_leaves numbers.now.heading (take numbers.now.notes ledger.now) (made_with numbers.now) issue buffer.old }
    ensures ends { MatchResult result (λ count. count ≡ length (statement_text numbers.now.heading (take numbers.now.notes ledger.now) issue)) (λ _. buffer.new ≡ buffer.old) }
{
    put_statement(
        &numbers.heading,
        ledger,
        numbers.notes,
        numbers.issue.number() + 1,
        issue,
        buffer,
    )
}

// Writes the statement of an issue into the buffer. Answers how long it is.
pub fn statement(
    day: Issued,
    issue: u8,
    book: &Book,
    table: &Table,
    ledger: &[Note],
    buffer: &mut [u8],
) -> Result<(Issued, usize), Refused<Issued>>
    ensures { (result, buffer.new) ≡ statement_gives day (memory (held book.now) table.now ledger.now) issue buffer.old }
{
    let day = day.checked_with(book, table, ledger)?;
    match put(&day.numbers, issue, ledger, buffer) {
        Ok(length) => Ok((day, length)),
        Err(fault) => Err(Refused { day, fault }),
    }
}
