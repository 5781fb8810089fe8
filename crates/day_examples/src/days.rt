// A small day, and how the examples tell what a call answered.
use book::book::Book;
use codes::table::Table;
use day::issuing::issue;
use day::opening::load;
use day::refused::Refused;
use day::settling::settle;
use day::state::{Closed, DayIn, Issued, Settled};
use ledger::note::Note;
use sharing::choice::Rule;
use std::test::Fail;

// 2019-03-05 with 24 hours, 2 accounts, 1 node and no interconnection; the price of hour 7; and what the two accounts bought
// in that hour, the second more than it had planned.
pub const FILE: [u8; 54] =
    *b"DY\x07\xe3\x03\x05\x18\x02\x01\x00PN\x01\x07\x00\x00\xc3\x50\x00\x00\xea\x60EN\x01\x01\x07\x02\x00\x00\x07\xd0\x00\x00\x07\xd0EN\x02\x01\x07\x02\x00\x00\x03\xe8\x00\x00\x05\x14ZZ\x00\x04";

// Lets the day go, by its numbers; the number of the refusal, if there is one.
pub fn refused<S, T>(answer: Result<DayIn<S>, Refused<DayIn<T>>>) -> Option<u8> {
    match answer {
        Ok(day) => {
            let _ = day.into_numbers();
            None
        }
        Err(Refused { day, fault }) => {
            let _ = day.into_numbers();
            Some(fault.number())
        }
    }
}

// Lets the day of a refused call go.
fn fail<S>(refused: Refused<DayIn<S>>, why: &'static str) -> Fail {
    let Refused { day, fault: _ } = refused;
    let _ = day.into_numbers();
    Fail::new(why)
}

pub fn loaded(book: &mut Book, table: &mut Table, ledger: &mut [Note]) -> Result<Closed, Fail> {
    load(&FILE, book, table, ledger).map_err(|_| Fail::new("load was refused"))
}

pub fn settled(
    day: Closed,
    book: &Book,
    table: &mut Table,
    ledger: &[Note],
) -> Result<Settled, Fail> {
    settle(day, &Rule::Running, book, table, ledger).map_err(|no| fail(no, "settle was refused"))
}

// The day loaded, settled and issued, with seven notes.
pub fn issued(book: &mut Book, table: &mut Table, ledger: &mut [Note]) -> Result<Issued, Fail> {
    let day = loaded(book, table, ledger)?;
    let day = settled(day, book, table, ledger)?;
    let (day, _) = issue(day, book, table, ledger).map_err(|no| fail(no, "issue was refused"))?;
    Ok(day)
}
