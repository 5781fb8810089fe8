// A day in whatever state it is.
ghost use Rattle.std.specs.Prelude.{◌≡◌};
ghost use Rattle.history.specs.States.{numbers_of};

use day::state::{Closed, Issued, Numbers, Open, Settled};

pub enum Day {
    Open(Open),
    Closed(Closed),
    Settled(Settled),
    Issued(Issued),
}

impl Day {
    // No day can be dropped. Who has no more use for it takes its numbers.
    pub fn into_numbers(self) -> Numbers
        ensures { result ≡ numbers_of self }
    {
        match self {
            Day::Open(day) => day.into_numbers(),
            Day::Closed(day) => day.into_numbers(),
            Day::Settled(day) => day.into_numbers(),
            Day::Issued(day) => day.into_numbers(),
        }
    }
}
