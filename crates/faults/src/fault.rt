// What a refused call answers: the reason, and the place that it is about.
ghost use Rattle.std.specs.Prelude.{◌≡◌, Some};
ghost use Rattle.faults.specs.Numbers.{refusal_layer, refusal_number};
ghost use Rattle.faults.specs.Places.{at, fault_of, fault_text, nowhere, place_text, plain, reading_at};

use crate::refusal::{Layer, Refusal};
use std::error::Error;
use std::fmt;

// Where a refused record stands in a file, and the account, node and hour that it names; 0 for what there is none of.
// No Options: the line of a refusal prints 0.
#[derive(Clone, Copy, PartialEq, Eq, Debug)]
pub struct Place {
    pub offset: usize,
    pub account: u8,
    pub node: u8,
    pub hour: u8,
}

#[derive(Clone, Copy, PartialEq, Eq, Debug)]
pub struct Fault {
    pub refusal: Refusal,
    pub place: Place,
}

impl Place {
    // No place. Its name says more than that of a Default.
    pub fn none() -> Self
        ensures { result ≡ nowhere }
    {
        Place {
            offset: 0,
            account: 0,
            node: 0,
            hour: 0,
        }
    }

    // The account, node and hour of a record or a call.
    pub fn new(account: u8, node: u8, hour: u8) -> Self
        ensures { result ≡ at account node hour }
    {
        Place {
            account,
            node,
            hour,
            ..Place::none()
        }
    }
}

impl Fault {
    pub fn new(refusal: Refusal, place: Place) -> Self
        ensures { result ≡ fault_of refusal place }
    {
        Fault { refusal, place }
    }

    // A fault that names no place.
    pub fn plain(refusal: Refusal) -> Self
        ensures { result ≡ plain refusal }
    {
        Fault {
            refusal,
            place: Place::none(),
        }
    }

    // The number by which the market's documents know the reason.
    pub fn number(&self) -> u8
        ensures { result ≡ refusal_number self.now.refusal }
    {
        u8::from(self.refusal)
    }

    pub fn layer(&self) -> Layer
        ensures { result ≡ refusal_layer self.now.refusal }
    {
        self.refusal.layer()
    }

    // The same fault, of a record that stands at the offset.
    pub fn at_offset(self, offset: usize) -> Self
        ensures { result ≡ reading_at offset self }
    {
        Fault {
            place: Place {
                offset,
                ..self.place
            },
            ..self
        }
    }
}

// The offset, account, node and hour, with a space between.
impl fmt::Display for Place {
    ghost output = { λ place. Some (place_text place) };

    fn fmt<W: fmt::Write>(&self, f: &mut fmt::Formatter<W>) -> fmt::Result {
        write!(
            f,
            "{} {} {} {}",
            self.offset, self.account, self.node, self.hour
        )
    }
}

// The numbers of the reason and of its layer, and the place, with a space between.
impl fmt::Display for Fault {
    ghost output = { λ fault. Some (fault_text fault) };

    fn fmt<W: fmt::Write>(&self, f: &mut fmt::Formatter<W>) -> fmt::Result {
        let layer = u8::from(self.layer());
        write!(f, "{} {layer} {}", self.number(), self.place)
    }
}

impl Error for Fault {}
