// The parties that amounts are settled with, by number. A party is its number, as ledgers and statements have it.
ghost use Rattle.std.specs.Prelude.{◌≡◌, ◌<◌, IfSome};
ghost use Rattle.codes.specs.Parties.{party_at, party_count, party_place};

// Accounts are the parties 1 to 32.
pub const ACCOUNTS: usize = 32;

const LAST_ACCOUNT: u8 = ACCOUNTS as u8;
// External system 1 is party 41, the fourth and last is party 44.
pub const SYSTEMS: usize = 4;

pub const FIRST_SYSTEM: u8 = 41;

const LAST_SYSTEM: u8 = 44;

pub const WORKING_CAPITAL_FUND: u8 = 51;

pub const UNIVERSAL_SERVICE_FUND: u8 = 52;

const FUNDS: usize = 2;

pub const PARTY_COUNT: usize = ACCOUNTS + SYSTEMS + FUNDS;

// Every party, in the order of the numbers.
pub const PARTIES: [u8; PARTY_COUNT] = [
    1, 2, 3, 4, 5, 6, 7, 8, 9, 10, 11, 12, 13, 14, 15, 16, 17, 18, 19, 20, 21, 22, 23, 24, 25, 26,
    27, 28, 29, 30, 31, 32, 41, 42, 43, 44, 51, 52,
];

// The number of the party at a place of that order, if there is one: for callers, as the counterpart of `party_place`.
#[tactic(auto, using(crate::proofs::Places::slice_get_from_item))]
pub fn party_at(place: usize) -> Option<u8>
    ensures { result ≡ party_at place }
{
    PARTIES.get(place).copied()
}

// The place of the party with this number, if there is one: reckoned from how many parties of each kind there are.
pub fn party_place(party: u8) -> Option<usize>
    ensures value { result ≡ party_place party }
    ensures within { IfSome result (λ i. i < party_count) }
{
    // Accounts first, since nearly every party is one: a match alone is compiled to ask for the funds first.
    if (1..=LAST_ACCOUNT).contains(&party) {
        return Some(usize::from(party) - 1);
    }
    match party {
        FIRST_SYSTEM..=LAST_SYSTEM => Some(ACCOUNTS + usize::from(party - FIRST_SYSTEM)),
        WORKING_CAPITAL_FUND => Some(ACCOUNTS + SYSTEMS),
        UNIVERSAL_SERVICE_FUND => Some(ACCOUNTS + SYSTEMS + 1),
        _ => None,
    }
}
