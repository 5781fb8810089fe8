// The items of the day: penalties and fines.
ghost use Rattle.std.specs.Prelude.{◌≡◌, ℕ, ◌<◌, ◌≤◌, List, length, ℤ, pos, neg_ℤ, slice_index_or, take, unsigned_abs};
ghost use Rattle.book.specs.Books.{held};
ghost use Rattle.codes.specs.Sums.{sum_over};
ghost use Rattle.valuation.specs.Terms.{fine_mils};
ghost use Rattle.valuation.specs.Valid.{ValidFine};
ghost use Rattle.charges.specs.Items.{all_fines, all_penalties, fines, penalties};
ghost use Rattle.settlement.specs.Days.{item};
ghost use Rattle.settlement.specs.Grown.{Grown, Penalized, Room, RoomIn, RowAdded};
ghost use Rattle.settlement.specs.Sheets.{amount_of, to_accounts, to_universal_service, to_working_capital};

use crate::adding::{add, add_each, add_listed};
use crate::priced::PricedBook;
use amounts::scope::Negated;
use amounts::sums::{Term, sum_of};
use charges::penalties::put_penalties;
use codes::code::{CODES, Code};
use codes::party::{ACCOUNTS, UNIVERSAL_SERVICE_FUND, WORKING_CAPITAL_FUND};
use codes::table::Table;
use dayfile::record::Fine;
use valuation::terms::fine_mils;

// A fine as the universal service fund is paid it.
#[derive(Clone, Copy)]
struct FineOf;

impl Term<Fine> for FineOf {
    ghost adds = { λ s x. fine_mils x };

    ghost valid = { λ s x. ValidFine x };

    fn term(&self, x: &Fine) -> i64 {
        fine_mils(x)
    }
}

impl<'a> PricedBook<'a> {
    // Charges each account its fines.
    fn charge_fines(&self, code: Code, table: &mut Table)
        requires { RoomIn table.old code }
        ensures { RowAdded table.old table.new code (amount_of self.now.book.now.heading.accounts (to_accounts (λ account. neg_ℤ (fines (held self.now.book.now) account)))) }
    {
        let term = Negated { term: FineOf };
        add_each(&term, self.book.fines.as_slice(), code, table);
    }

    fn total_fines(&self) -> i64
        ensures value { result ≡ all_fines (held self.now.book.now) }
        ensures bound { unsigned_abs result ≤ 50000000000000000 }
    {
        sum_of(&FineOf, self.book.fines.as_slice())
    }

    // Pays all fines to the universal service fund.
    fn pay_fines(&self, code: Code, table: &mut Table)
        requires { RoomIn table.old code }
        ensures { RowAdded table.old table.new code (amount_of self.now.book.now.heading.accounts (to_universal_service (all_fines (held self.now.book.now)))) }
    {
        add(table, code, UNIVERSAL_SERVICE_FUND, self.total_fines());
    }
}

// Turns the sign of each amount. No `map` of the whole array: beyond the day's accounts a proof knows no bound of what it holds.
fn negate(amounts: &mut [i64])
    requires { (k : ℕ) → k < length amounts.old → unsigned_abs (slice_index_or amounts.old k (pos 0)) ≤ 16000000000000000 }
    ensures { (k : ℕ) → k < length amounts.old → slice_index_or amounts.new k (pos 0) ≡ neg_ℤ (slice_index_or amounts.old k (pos 0)) }
{
    for amount in amounts.iter_mut() {
        *amount = -*amount;
    }
}

// A loop of its own: a day's penalties may pass the bound of a `Term`, and `sum` of signed numbers proves no bound.
fn total_of(amounts: &[i64]) -> i64
    requires few { length amounts.now ≤ 32 }
    requires small { (k : ℕ) → k < length amounts.now → unsigned_abs (slice_index_or amounts.now k (pos 0)) ≤ 16000000000000000 }
    ensures { result ≡ sum_over (λ (z : ℤ). z) amounts.now }
{
    let mut total: i64 = 0;
    for amount in amounts {
        total += *amount;
    }
    total
}

// A day with the penalties of its accounts, account 1 first, in room for every account, since nothing may be allocated.
#[derive(Drop)]
pub(crate) struct Penalties<'a> {
    day: &'a PricedBook<'a>,
    amounts: [i64; ACCOUNTS],
    ghost penalized: { Penalized (held day.now.book.now) (take day.now.book.now.heading.accounts amounts) },
}

impl<'a> Penalties<'a> {
    pub fn of(day: &'a PricedBook<'a>) -> Penalties<'a>
        ensures { result.day.now ≡ day.now }
    {
        let accounts = day.accounts();
        let mut sums = [0i64; ACCOUNTS];
        let mut amounts = [0i64; ACCOUNTS];
        put_penalties(
            day.book.reserves.as_slice(),
            day.book.failures.as_slice(),
            &mut sums[..accounts],
            &mut amounts[..accounts],
        );
        Penalties { day, amounts }
    }

    // Charges each account its penalties.
    fn charge(&self, code: Code, table: &mut Table)
        requires { RoomIn table.old code }
        ensures { RowAdded table.old table.new code (amount_of self.now.day.now.book.now.heading.accounts (to_accounts (λ account. neg_ℤ (penalties (held self.now.day.now.book.now) account)))) }
    {
        // A fixed array cut to length: nothing may be allocated.
        let mut places = self.amounts;
        let charges = &mut places[..self.day.accounts()];
        negate(charges);
        add_listed(charges, code, table);
    }

    // Pays all penalties to the working capital fund.
    fn pay(&self, code: Code, table: &mut Table)
        requires { RoomIn table.old code }
        ensures { RowAdded table.old table.new code (amount_of self.now.day.now.book.now.heading.accounts (to_working_capital (all_penalties (held self.now.day.now.book.now)))) }
    {
        let amounts = &self.amounts[..self.day.accounts()];
        add(table, code, WORKING_CAPITAL_FUND, total_of(amounts));
    }

    // Adds the items of a code. They are the same under every rule.
    fn add_item(&self, code: Code, table: &mut Table)
        requires { RoomIn table.old code }
        ensures { (parts : ℕ → List ℕ → List ℕ) → RowAdded table.old table.new code (item parts (held self.now.day.now.book.now) code) }
    {
        // Each code has its own amount: the match is the table of codes.
        match code {
            Code::F3 => self.charge(code, table),
            Code::F4 => self.pay(code, table),
            Code::F5 => self.day.charge_fines(code, table),
            Code::F6 => self.day.pay_fines(code, table),
            Code::A1 | Code::A2 | Code::A3 | Code::A4 => {}
            Code::B1 | Code::B2 | Code::B3 | Code::B4 => {}
            Code::F1 | Code::F2 => {}
        }
    }

    // Adds the items of the day to a table.
    pub fn add_items(&self, table: &mut Table)
        requires { Room table.old }
        ensures { (parts : ℕ → List ℕ → List ℕ) → Grown table.old table.new (item parts (held self.now.day.now.book.now)) }
    {
        // Over all codes, as `add_sheet` is: one proof of rows that grow serves both, and four calls would need their own.
        for row in &CODES {
            self.add_item(row.code, table);
        }
    }
}
