// One call of a history.
ghost use Rattle.std.specs.Prelude.{ℕ, List, length};
ghost use Rattle.book.specs.Books.{held};
ghost use Rattle.codes.specs.declared.table.Table.{Table};
ghost use Rattle.day.specs.Memory.{memory};
ghost use Rattle.history.specs.Events.{lent};
ghost use Rattle.history.specs.Replays.{Advanced, Begun, call_in};

use crate::states::Day;
use crate::steps::{Answer, Begin, NotTaken, Outcome, Step};
use book::book::Book;
use codes::table::Table;
use day::corrections::correct;
use day::entering::{close, enter};
use day::issuing::{issue, statement};
use day::opening::{load, open};
use day::refused::Refused;
use day::reopening::reopen;
use day::settling::settle;
use day::sheets::sheet;
use day::state::{Closed, Issued, Open, Settled};
use faults::fault::Fault;
use ledger::note::Note;
use sharing::rule::Sharing;

// The call that a history begins with.
pub fn begin<'a>(
    start: &Begin<'a>,
    book: &mut Book,
    table: &mut Table,
    ledger: &mut [Note],
) -> Result<Day, Fault>
    ensures { Begun start.now (memory (held book.old) table.old ledger.old) result (memory (held book.new) table.new ledger.new) }
{
    match start {
        Begin::Open(bytes) => Ok(Day::Open(open(bytes, book, table, ledger)?)),
        Begin::Load(file) => Ok(Day::Closed(load(file, book, table, ledger)?)),
    }
}

// A step of an open day. A step is data, and the day's state decides which are taken. Each arm names the state that it leads
// to, here and below, which a helper for all would hide.
fn advance_open<'a, R: Sharing>(
    day: Open,
    step: &Step<'a, R>,
    book: &mut Book,
    table: &Table,
    ledger: &[Note],
) -> Result<(Day, Answer), NotTaken>
    ensures { (page : Table) (buffer : List ℕ) → Advanced (call_in R.Sharing.parts (length buffer) step.now) (Day.Open day) (memory (held book.old) table.now ledger.now) (lent page buffer) result (memory (held book.new) table.now ledger.now) (lent page buffer) }
{
    match step {
        Step::Enter(bytes) => match enter(day, bytes, book, table, ledger) {
            Ok(day) => Ok((Day::Open(day), Ok(Outcome::Done))),
            Err(Refused { day, fault }) => Ok((Day::Open(day), Err(fault))),
        },
        Step::Close(bytes) => match close(day, bytes, book, table, ledger) {
            Ok(day) => Ok((Day::Closed(day), Ok(Outcome::Done))),
            Err(Refused { day, fault }) => Ok((Day::Open(day), Err(fault))),
        },
        _ => Err(NotTaken(Day::Open(day))),
    }
}

// A step of a closed day.
fn advance_closed<'a, R: Sharing>(
    day: Closed,
    step: &Step<'a, R>,
    book: &mut Book,
    table: &mut Table,
    ledger: &[Note],
) -> Result<(Day, Answer), NotTaken>
    ensures { (page : Table) (buffer : List ℕ) → Advanced (call_in R.Sharing.parts (length buffer) step.now) (Day.Closed day) (memory (held book.old) table.old ledger.now) (lent page buffer) result (memory (held book.new) table.new ledger.now) (lent page buffer) }
{
    match step {
        Step::Correct(reading) => match correct(day, *reading, book, table, ledger) {
            Ok(day) => Ok((Day::Closed(day), Ok(Outcome::Done))),
            Err(Refused { day, fault }) => Ok((Day::Closed(day), Err(fault))),
        },
        Step::Settle(rule) => match settle(day, *rule, book, table, ledger) {
            Ok(day) => Ok((Day::Settled(day), Ok(Outcome::Done))),
            Err(Refused { day, fault }) => Ok((Day::Closed(day), Err(fault))),
        },
        _ => Err(NotTaken(Day::Closed(day))),
    }
}

// A step of a settled day.
fn advance_settled<'a, R: Sharing>(
    day: Settled,
    step: &Step<'a, R>,
    book: &Book,
    table: &Table,
    ledger: &mut [Note],
    page: &mut Table,
) -> Result<(Day, Answer), NotTaken>
    ensures { (buffer : List ℕ) → Advanced (call_in R.Sharing.parts (length buffer) step.now) (Day.Settled day) (memory (held book.now) table.now ledger.old) (lent page.old buffer) result (memory (held book.now) table.now ledger.new) (lent page.new buffer) }
{
    match step {
        Step::Sheet { hour, rule } => match sheet(day, *hour, *rule, book, table, ledger, page) {
            Ok(day) => Ok((Day::Settled(day), Ok(Outcome::Done))),
            Err(Refused { day, fault }) => Ok((Day::Settled(day), Err(fault))),
        },
        Step::Issue => match issue(day, book, table, ledger) {
            Ok((day, added)) => Ok((Day::Issued(day), Ok(Outcome::Added(added)))),
            Err(Refused { day, fault }) => Ok((Day::Settled(day), Err(fault))),
        },
        _ => Err(NotTaken(Day::Settled(day))),
    }
}

// A step of an issued day.
fn advance_issued<'a, R: Sharing>(
    day: Issued,
    step: &Step<'a, R>,
    book: &Book,
    table: &Table,
    ledger: &[Note],
    page: &mut Table,
    buffer: &mut [u8],
) -> Result<(Day, Answer), NotTaken>
    ensures { Advanced (call_in R.Sharing.parts (length buffer.old) step.now) (Day.Issued day) (memory (held book.now) table.now ledger.now) (lent page.old buffer.old) result (memory (held book.now) table.now ledger.now) (lent page.new buffer.new) }
{
    match step {
        Step::Sheet { hour, rule } => match sheet(day, *hour, *rule, book, table, ledger, page) {
            Ok(day) => Ok((Day::Issued(day), Ok(Outcome::Done))),
            Err(Refused { day, fault }) => Ok((Day::Issued(day), Err(fault))),
        },
        Step::Statement(number) => match statement(day, *number, book, table, ledger, buffer) {
            Ok((day, length)) => Ok((Day::Issued(day), Ok(Outcome::Written(length)))),
            Err(Refused { day, fault }) => Ok((Day::Issued(day), Err(fault))),
        },
        Step::Reopen => match reopen(day, book, table, ledger) {
            Ok(day) => Ok((Day::Closed(day), Ok(Outcome::Done))),
            Err(Refused { day, fault }) => Ok((Day::Issued(day), Err(fault))),
        },
        _ => Err(NotTaken(Day::Issued(day))),
    }
}

// One call more: makes the step, where the day's state takes it. A refused call is a step that was made.
// What the calls work on is lent part by part, as they take it: a struct of `&mut`s would be taken apart for each of them.
pub fn advance<'a, R: Sharing>(
    day: Day,
    step: &Step<'a, R>,
    book: &mut Book,
    table: &mut Table,
    ledger: &mut [Note],
    page: &mut Table,
    buffer: &mut [u8],
) -> Result<(Day, Answer), NotTaken>
    ensures { Advanced (call_in R.Sharing.parts (length buffer.old) step.now) day (memory (held book.old) table.old ledger.old) (lent page.old buffer.old) result (memory (held book.new) table.new ledger.new) (lent page.new buffer.new) }
{
    match day {
        Day::Open(day) => advance_open(day, step, book, table, ledger),
        Day::Closed(day) => advance_closed(day, step, book, table, ledger),
        Day::Settled(day) => advance_settled(day, step, book, table, ledger, page),
        Day::Issued(day) => advance_issued(day, step, book, table, ledger, page, buffer),
    }
}
