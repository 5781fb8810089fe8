// Memory that is written to between two calls of a day: each call is refused with 1, and leaves it as it was.
use crate::days::{issued, loaded, refused, settled};
use book::book::Book;
use codes::code::Code;
use codes::table::Table;
use correcting::reading::Reading;
use day::corrections::correct;
use day::issuing::{issue, statement};
use day::reopening::reopen;
use day::settling::settle;
use dayfile::heading::Heading;
use ledger::note::Note;
use sharing::choice::Rule;
use std::test::Fail;

const READING: Reading = Reading {
    account: 1,
    node: 1,
    hour: 7,
    class: 2,
    real_time: 5,
};

// The reading of the first position, if there is one.
fn first_reading(book: &Book) -> Option<u32> {
    book.positions.first().map(|position| position.real_time)
}

#[test]
fn another_heading(rt: HostRuntime) -> Result<(), Fail> {
    let mut book = Book::new(rt.alloc())?;
    let mut table = Table::new();
    let mut ledger = [Note::none(); 8];
    let Some(other) = Heading::new(2019, 3, 6, 24, 2, 1, 0) else {
        return Err(Fail::new("no heading"));
    };
    let day = loaded(&mut book, &mut table, &mut ledger)?;
    book.heading = other;
    let number = refused(correct(day, READING, &mut book, &table, &ledger));
    assert_eq!(rt; number, Some(1));
    assert_eq!(rt; book.heading.day, 6);
    assert_eq!(rt; first_reading(&book), Some(2000));
    Ok(())
}

#[test]
fn other_counts(rt: HostRuntime) -> Result<(), Fail> {
    let mut book = Book::new(rt.alloc())?;
    let mut table = Table::new();
    let mut ledger = [Note::none(); 8];
    let day = loaded(&mut book, &mut table, &mut ledger)?;
    let _ = book.positions.pop();
    let number = refused(settle(day, &Rule::Running, &book, &mut table, &ledger));
    assert_eq!(rt; number, Some(1));
    assert_eq!(rt; book.positions.len(), 1);
    assert_eq!(rt; table.amount(Code::A1, 1), 0, "nothing was settled");
    Ok(())
}

#[test]
fn a_cell_beyond_the_limit(rt: HostRuntime) -> Result<(), Fail> {
    let mut book = Book::new(rt.alloc())?;
    let mut table = Table::new();
    let mut ledger = [Note::none(); 8];
    let day = loaded(&mut book, &mut table, &mut ledger)?;
    let day = settled(day, &book, &mut table, &ledger)?;
    table.put(Code::F6, 52, -100_000_000_000_000_001);
    let number = refused(issue(day, &book, &table, &mut ledger).map(|(day, _)| day));
    assert_eq!(rt; number, Some(1));
    assert_eq!(rt; ledger[0].code, 0, "no note was added");
    assert_eq!(rt; table.amount(Code::F6, 52), -100_000_000_000_000_001);
    assert_eq!(rt; table.amount(Code::A1, 1), -100_000_000);
    Ok(())
}

#[test]
fn an_unknown_code(rt: HostRuntime) -> Result<(), Fail> {
    let mut book = Book::new(rt.alloc())?;
    let mut table = Table::new();
    let mut ledger = [Note::none(); 8];
    let day = issued(&mut book, &mut table, &mut ledger)?;
    ledger[0].code = 15;
    let number = refused(reopen(day, &book, &table, &ledger));
    assert_eq!(rt; number, Some(1));
    assert_eq!(rt; ledger[0].code, 15);
    assert_eq!(rt; ledger[1].amount, -50_000_000);
    Ok(())
}

#[test]
fn notes_out_of_order(rt: HostRuntime) -> Result<(), Fail> {
    let mut book = Book::new(rt.alloc())?;
    let mut table = Table::new();
    let mut ledger = [Note::none(); 8];
    let mut buffer = [7; 200];
    let day = issued(&mut book, &mut table, &mut ledger)?;
    ledger.swap(0, 1);
    let number = refused(statement(day, 0, &book, &table, &ledger, &mut buffer).map(|(
        day,
        _,
    )| day));
    assert_eq!(rt; number, Some(1));
    assert!(rt; ledger[0].party == 2 && ledger[1].party == 1);
    assert!(rt; buffer == [7; 200], "nothing was written");
    Ok(())
}
