// What a table asks of its records.
ghost use Rattle.std.specs.Prelude.{◌≡◌, ℕ};
ghost use Rattle.rows.specs.Tables.{Terms};

use dayfile::heading::Heading;

// A record of one kind.
pub trait Row {
    // Key, ranges, what the heading must list, and room.
    ghost terms: { Terms Self };

    ghost ROOM: { ℕ };

    // How many records of the kind a book holds at most.
    const ROOM: usize;

    // Do the two have one key? They may differ in the rest, so that this is no `==`.
    fn is_alike(&self, other: &Self) -> bool
        ensures { result ≡ terms.alike self.now other.now };

    // Does every field lie in its range?
    fn is_in_range(&self) -> bool
        ensures { result ≡ terms.in_range self.now };

    // Does the heading have its account, node, hour and interconnection?
    fn is_listed(&self, heading: &Heading) -> bool
        ensures { result ≡ terms.listed heading.now self.now };

    // It is the room of the terms.
    ghost room_is: { ROOM ≡ terms.room };
}
