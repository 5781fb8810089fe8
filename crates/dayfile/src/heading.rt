// The heading of a day: its date, and how many hours, accounts, nodes and interconnections it has.
ghost use Rattle.std.specs.Prelude.{T};
ghost use Rattle.dayfile.specs.Calendar.{real_heading};

// A heading always has a real date, 23, 24 or 25 hours, and counts within their ranges: no value of another kind can be made.
#[derive(Clone, Copy, PartialEq, Eq, Debug)]
pub struct Heading {
    pub year: u16,
    pub month: u8,
    pub day: u8,
    pub hours: u8,
    pub accounts: u8,
    pub nodes: u8,
    pub interconnections: u8,
    ghost real: { T (real_heading year month day hours accounts nodes interconnections) },
}
