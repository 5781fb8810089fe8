// What a refused call answers: the day that it was given, and why it was refused.
ghost use Rattle.std.specs.Prelude.{◌≡◌};
ghost use Rattle.faults.specs.Places.{plain};
ghost use Rattle.faults.specs.declared.refusal.Refusal.TheVariants.{UnsoundMemory};

use faults::fault::Fault;
use faults::refusal::Refusal;

// No `map_err` makes one: its closure would take the day, which the accepted answer needs.
pub struct Refused<D> {
    pub day: D,
    pub fault: Fault,
}

impl<D> Refused<D> {
    // Refused before anything else: the memory is not the day's.
    pub(crate) fn unsound(day: D) -> Refused<D>
        ensures { result ≡ record { day = day; fault = plain UnsoundMemory } }
    {
        let fault = Fault::plain(Refusal::UnsoundMemory);
        Refused { day, fault }
    }
}
