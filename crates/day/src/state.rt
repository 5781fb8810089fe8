// A day in one of its states.
ghost use Rattle.std.specs.Prelude.{◌≡◌};
ghost use Rattle.day.specs.Calls.{issues_in};
ghost use Rattle.day.specs.States.{day_with};

use crate::issue_number::IssueNumber;
use crate::stage;
use crate::stage::State;
use book::counts::Counts;
use dayfile::heading::Heading;
use std::marker::PhantomData;

// The numbers that a day carries from call to call.
#[derive(Clone, Copy)]
pub struct Numbers {
    pub heading: Heading,
    // How many records of each kind the book holds.
    pub counts: Counts,
    // How many notes the ledger holds.
    pub notes: usize,
    // The issue that is made next; on an issued day, the one that was made last.
    pub issue: IssueNumber,
}

// A day in the state S. Only the calls make one, and it cannot be dropped.
pub struct DayIn<S> {
    pub(crate) numbers: Numbers,
    pub(crate) state: PhantomData<S>,
}

pub type Open = DayIn<stage::Open>;

pub type Closed = DayIn<stage::Closed>;

pub type Settled = DayIn<stage::Settled>;

pub type Issued = DayIn<stage::Issued>;

impl<S: State> DayIn<S> {
    pub(crate) fn new(numbers: Numbers) -> DayIn<S>
        ensures { result ≡ day_with numbers }
    {
        DayIn {
            numbers,
            state: PhantomData,
        }
    }

    // How many issues were made.
    pub(crate) fn issues(&self) -> u8
        ensures { result ≡ issues_in S.State.MADE self.now.numbers }
    {
        let named = self.numbers.issue.number();
        if S::MADE { named + 1 } else { named }
    }
}

impl<S> DayIn<S> {
    // Who has no more use for a day takes its numbers and lets the day go.
    pub fn into_numbers(self) -> Numbers
        ensures { result ≡ self.numbers }
    {
        let DayIn { numbers, state: _ } = self;
        numbers
    }
}
