// Histories, from the first call to the last.
use crate::days::FILE;
use book::book::Book;
use codes::table::Table;
use history::replay::replay;
use history::steps::{Answer, Begin, NotBegun, Outcome, Replay, Step};
use ledger::note::Note;
use sharing::choice::Rule;
use std::alloc::Global;
use std::test::Fail;

const HEADING: [u8; 10] = *b"DY\x07\xe3\x03\x05\x18\x02\x01\x00";

const PRICE: [u8; 12] = *b"PN\x01\x07\x00\x00\xc3\x50\x00\x00\xea\x60";

const POSITION: [u8; 14] = *b"EN\x01\x01\x07\x02\x00\x00\x07\xd0\x00\x00\x07\xd0";

const TOO_MANY: [u8; 4] = *b"ZZ\x00\x04";

const END: [u8; 4] = *b"ZZ\x00\x03";

// The answers of a history, and what its notes and its last statement were written into.
fn answers<'a>(
    heap: Global,
    start: &Begin<'a>,
    steps: &[Step<'a, Rule>],
    ledger: &mut [Note],
    buffer: &mut [u8],
) -> Result<Vec<Answer>, Fail> {
    let mut book = Book::new(heap)?;
    let mut table = Table::new();
    let mut page = Table::new();
    match replay(
        heap, start, steps, &mut book, &mut table, ledger, &mut page, buffer,
    ) {
        Ok(Replay { day, answers }) => {
            let _ = day.into_numbers();
            Ok(answers)
        }
        Err(NotBegun::Refused(_)) => Err(Fail::new("the first call was refused")),
        Err(NotBegun::NoMemory(_)) => Err(Fail::new("no memory")),
    }
}

// Was the call done, with nothing to tell?
fn is_done(answers: &[Answer], index: usize) -> bool {
    matches!(answers.get(index), Some(Ok(Outcome::Done)))
}

// How many notes an issue added, or bytes a statement has.
fn count(answers: &[Answer], index: usize) -> Option<usize> {
    match answers.get(index) {
        Some(Ok(Outcome::Added(notes))) => Some(*notes),
        Some(Ok(Outcome::Written(length))) => Some(*length),
        _ => None,
    }
}

// The number of the refusal, if there is one.
fn refusal(answers: &[Answer], index: usize) -> Option<u8> {
    match answers.get(index) {
        Some(Err(fault)) => Some(fault.number()),
        _ => None,
    }
}

#[test]
fn two_rules(rt: HostRuntime) -> Result<(), Fail> {
    let steps = [
        Step::Settle(&Rule::Running),
        Step::Issue,
        Step::Reopen,
        Step::Settle(&Rule::LargestRemainder),
        Step::Issue,
        Step::Statement(1),
    ];
    let mut ledger = [Note::none(); 16];
    let mut buffer = [0; 200];
    let told = answers(
        rt.alloc(),
        &Begin::Load(&FILE),
        &steps,
        &mut ledger,
        &mut buffer,
    )?;
    assert_eq!(rt; told.len(), 6);
    assert_eq!(rt; count(told.as_slice(), 1), Some(7));
    assert_eq!(rt; count(told.as_slice(), 4), Some(4));
    assert_eq!(rt; count(told.as_slice(), 5), Some(62));
    assert!(rt; ledger[7].issue == 1 && ledger[7].code == 2 && ledger[7].amount == 1);
    assert!(rt; ledger[8].party == 2 && ledger[8].amount == -1);
    Ok(())
}

#[test]
fn refused_in_the_middle(rt: HostRuntime) -> Result<(), Fail> {
    let steps = [
        Step::Enter(&PRICE),
        Step::Enter(&PRICE),
        Step::Enter(&POSITION),
        Step::Close(&TOO_MANY),
        Step::Close(&END),
        Step::Settle(&Rule::Running),
        Step::Issue,
    ];
    let mut ledger = [Note::none(); 4];
    let mut buffer = [0; 1];
    let told = answers(
        rt.alloc(),
        &Begin::Open(&HEADING),
        &steps,
        &mut ledger,
        &mut buffer,
    )?;
    assert_eq!(rt; told.len(), 7);
    assert_eq!(rt; refusal(told.as_slice(), 1), Some(7));
    assert!(rt; is_done(told.as_slice(), 2));
    assert_eq!(rt; refusal(told.as_slice(), 3), Some(9));
    assert!(rt; is_done(told.as_slice(), 4));
    assert_eq!(rt; count(told.as_slice(), 6), Some(2));
    Ok(())
}

#[test]
fn no_fifth_issue(rt: HostRuntime) -> Result<(), Fail> {
    let steps = [
        Step::Settle(&Rule::Running),
        Step::Issue,
        Step::Reopen,
        Step::Settle(&Rule::Running),
        Step::Issue,
        Step::Reopen,
        Step::Settle(&Rule::Running),
        Step::Issue,
        Step::Reopen,
        Step::Settle(&Rule::Running),
        Step::Issue,
        Step::Reopen,
        Step::Settle(&Rule::Running),
    ];
    let mut ledger = [Note::none(); 8];
    let mut buffer = [0; 1];
    let told = answers(
        rt.alloc(),
        &Begin::Load(&FILE),
        &steps,
        &mut ledger,
        &mut buffer,
    )?;
    assert_eq!(rt; told.len(), 12);
    assert_eq!(rt; count(told.as_slice(), 1), Some(7));
    assert_eq!(rt; count(told.as_slice(), 10), Some(0));
    assert_eq!(rt; refusal(told.as_slice(), 11), Some(14));
    Ok(())
}
