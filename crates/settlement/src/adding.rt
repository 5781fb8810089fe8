// Adding amounts to a table. Table and code are two parameters and no struct: each call changes the table, and a struct that
// borrows it would be made anew for each code.
ghost use Rattle.std.specs.Prelude.{◌≡◌, ℕ, ◌<◌, ◌≤◌, true, length, pos, is_some, slice_index_or, unsigned_abs};
ghost use Rattle.std.specs.List.{AllByRecursion};
ghost use Rattle.codes.specs.Cells.{cell};
ghost use Rattle.codes.specs.Parties.{party_place, system_party};
ghost use Rattle.codes.specs.Sums.{sum_over};
ghost use Rattle.valuation.specs.Valid.{ValidInterconnection};
ghost use Rattle.amounts.specs.Amounts.{owned_by};
ghost use Rattle.settlement.specs.Grown.{Added, RoomIn, RowAdded, listed_amount};

use amounts::sums::Term;
use codes::code::Code;
use codes::party::FIRST_SYSTEM;
use codes::table::Table;
use dayfile::record::{Fine, Interconnection, Position, Reserve};

// Adds to one cell.
pub(crate) fn add(table: &mut Table, code: Code, party: u8, amount: i64)
    requires known { is_some (party_place party) ≡ true }
    requires before { unsigned_abs (cell table.old code party) ≤ 2000000000000000000 }
    requires more { unsigned_abs amount ≤ 1000000000000000000 }
    ensures { Added table.old table.new code party amount }
{
    let old = table.amount(code, party);
    table.put(code, party, old + amount);
}

// A record whose amount goes to a party.
pub(crate) trait Payee {
    ghost party: { Self → ℕ };

    // What must be known of a record for there to be such a party.
    ghost listed: { Self → Type 0 };

    fn party(&self) -> u8
        requires { listed self.now }
        ensures value { result ≡ party self.now }
        ensures known { is_some (party_place result) ≡ true };
}

// Adds each record's amount to its party's cell under a code, in one pass.
pub(crate) fn add_each<X: Payee, T: Term<X>>(term: &T, xs: &[X], code: Code, table: &mut Table)
    requires few { length xs.now ≤ 1000 }
    requires valid { AllByRecursion (T.Term.valid term.now) xs.now }
    requires listed { AllByRecursion X.Payee.listed xs.now }
    requires room { RoomIn table.old code }
    ensures { RowAdded table.old table.new code (λ q. sum_over (λ x. owned_by (X.Payee.party x) q (T.Term.adds term.now x)) xs.now) }
{
    for x in xs {
        add(table, code, x.party(), term.term(x));
    }
}

// Adds an amount for each account, account 1 first, under a code.
pub(crate) fn add_listed(amounts: &[i64], code: Code, table: &mut Table)
    requires few { length amounts.now ≤ 32 }
    requires small { (k : ℕ) → k < length amounts.now → unsigned_abs (slice_index_or amounts.now k (pos 0)) ≤ 100000000000000000 }
    requires room { RoomIn table.old code }
    ensures { RowAdded table.old table.new code (listed_amount amounts.now) }
{
    // By place, as `listed_amount` has it: a zip with `1u8..` is no plainer, and its endless range may not pass 255.
    for (i, amount) in amounts.iter().enumerate() {
        add(table, code, i as u8 + 1, *amount);
    }
}

// A record that names an account. Each kind of record has its own fields, so each says where its account stands.
pub(crate) trait OfAccount {
    ghost account: { Self → ℕ };

    fn account(&self) -> u8
        ensures { result ≡ account self.now };
}

impl OfAccount for Position {
    ghost account = { λ x. x.account };

    fn account(&self) -> u8 {
        self.account
    }
}

impl OfAccount for Reserve {
    ghost account = { λ x. x.account };

    fn account(&self) -> u8 {
        self.account
    }
}

impl OfAccount for Fine {
    ghost account = { λ x. x.account };

    fn account(&self) -> u8 {
        self.account
    }
}

// An account is the party of its own number.
impl<X: OfAccount> Payee for X {
    ghost party = { λ x. X.account x };

    ghost listed = { λ x. (1 ≤ X.account x) × (X.account x ≤ 32) };

    fn party(&self) -> u8 {
        self.account()
    }
}

impl Payee for Interconnection {
    ghost party = { λ x. system_party x.system };

    ghost listed = { λ x. ValidInterconnection x };

    fn party(&self) -> u8 {
        FIRST_SYSTEM - 1 + self.system
    }
}
