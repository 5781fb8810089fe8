// The calls of a history, and what they answer.
use crate::states::Day;
use correcting::reading::Reading;
use faults::fault::Fault;
use std::alloc::AllocError;

// The call that a history begins with.
#[derive(Clone, Copy)]
pub enum Begin<'a> {
    Open(&'a [u8]),
    Load(&'a [u8]),
}

// A call on a day; each settle and each sheet brings its own rule.
#[derive(Drop)]
pub enum Step<'a, R> {
    Enter(&'a [u8]),
    Close(&'a [u8]),
    Correct(Reading),
    Settle(&'a R),
    Sheet { hour: u8, rule: &'a R },
    Issue,
    // By number: one that names no issue is refused.
    Statement(u8),
    Reopen,
}

// What an accepted call did.
#[derive(Clone, Copy)]
pub enum Outcome {
    Done,
    // An issue, which added so many notes.
    Added(usize),
    // A statement, of so many bytes.
    Written(usize),
}

// What a call answered: what it did, or why it was refused.
pub type Answer = Result<Outcome, Fault>;

// A step that the state of the day does not take gives the day back as it was.
pub struct NotTaken(pub Day);

// The day that a replay ended with, and the answers of the steps that were made.
pub struct Replay {
    pub day: Day,
    pub answers: Vec<Answer>,
}

// Why there is no history.
pub enum NotBegun {
    // The open or the load was refused.
    Refused(Fault),
    // There was no memory for the answers; nothing was done.
    NoMemory(AllocError),
}
