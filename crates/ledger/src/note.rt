// A note of the ledger.
ghost use Rattle.std.specs.Prelude.{◌≡◌};
ghost use Rattle.ledger.specs.Notes.{cleared, no_note, precedes};

// The largest magnitude of a note's amount and of a cell, in mils.
pub const AMOUNT_LIMIT: u64 = 100_000_000_000_000_000;

// What an issue adds to the account of a party under a code. The numbers are plain, since a ledger that is handed over
// may hold unknown ones.
#[derive(Clone, Copy, Debug, PartialEq, Eq)]
pub struct Note {
    pub issue: u8,
    pub code: u8,
    pub party: u8,
    pub amount: i64,
}

impl Note {
    // An emptied entry, which is no note: its code is none. Its name says more than that of a `Default`.
    pub fn none() -> Note
        ensures { result ≡ no_note }
    {
        Note {
            issue: 0,
            code: 0,
            party: 0,
            amount: 0,
        }
    }

    // Does this note come before the other: by issue, then code, then party? No derived order, as the amount does not count.
    pub fn precedes(&self, other: &Note) -> bool
        ensures { result ≡ precedes self.now other.now }
    {
        (self.issue, self.code, self.party) < (other.issue, other.code, other.party)
    }
}

// Empties every entry.
pub fn clear(ledger: &mut [Note])
    ensures { ledger.new ≡ cleared ledger.old }
{
    ledger.fill(Note::none());
}
