// The states of a day, as types.
ghost use Rattle.std.specs.Prelude.{Bool, true, false};

// Takes records.
pub struct Open;

// Has all its records; their readings may still be corrected.
pub struct Closed;

// Has a table, and is not issued.
pub struct Settled;

// Has a table, and its notes are in the ledger.
pub struct Issued;

// A state, by whether the issue that the day's numbers name was made.
pub trait State {
    ghost MADE: { Bool };

    const MADE: bool;
}

impl State for Open {
    ghost MADE = { false };

    const MADE: bool = false;
}

impl State for Closed {
    ghost MADE = { false };

    const MADE: bool = false;
}

impl State for Settled {
    ghost MADE = { false };

    const MADE: bool = false;
}

impl State for Issued {
    ghost MADE = { true };

    const MADE: bool = true;
}

// A state in which the day has a table.
pub trait HasTable: State {}

impl HasTable for Settled {}

impl HasTable for Issued {}
