// Amounts of an hour that are shared.
ghost use Rattle.std.specs.Prelude.{◌≡◌, ◌≤◌, true, false, length, ◌-ℤ◌, sum, nat_lt, unsigned_abs};
ghost use Rattle.sharing.specs.Shareable.{shareable};
ghost use Rattle.sharing.specs.Signed.{signed_parts};
ghost use Rattle.book.specs.Books.{held};
ghost use Rattle.codes.specs.Codes.{basis_of};
ghost use Rattle.codes.specs.Sums.{sum_over};
ghost use Rattle.codes.specs.declared.code.Basis.TheVariants.{Purchases};
ghost use Rattle.amounts.specs.Amounts.{accounts, energy, exchange, lacking, lacks, reserve, shared, value_of_imbalance};
ghost use Rattle.settlement.specs.Grown.{RoomIn, RowAdded};
ghost use Rattle.settlement.specs.Sheets.{amount_of, part, to_accounts};

use crate::adding::add_listed;
use crate::priced::PricedHour;
use amounts::scope::{ImbalanceValueOf, InHour};
use amounts::sums::sum_of;
use codes::code::{Basis, CODES, Code};
use codes::party::ACCOUNTS;
use codes::table::Table;
use sharing::rule::Sharing;
use sharing::signed::share_signed;
use valuation::market::Market;

fn have_weight(weights: &[u64]) -> bool
    ensures { result ≡ nat_lt 0 (sum weights.now) }
{
    weights.iter().any(|weight| *weight > 0)
}

// Shares what the rule will not refuse.
fn share_out<R: Sharing>(rule: &R, amount: i64, weights: &[u64], shares: &mut [i64])
    requires shareable { shareable (unsigned_abs amount) weights.now ≡ true }
    requires places { length shares.old ≡ length weights.now }
    ensures { shares.new ≡ signed_parts (R.Sharing.parts rule.now) amount weights.now }
{
    share_signed(rule, amount, weights, shares).unwrap();
}

impl<'a> PricedHour<'a> {
    // The energy of all accounts together.
    fn energy_total(&self, market: Market) -> i64
        ensures value { result ≡ sum_over (energy (held self.now.day.now.book.now) market self.now.hour) (accounts (held self.now.day.now.book.now)) }
        ensures bound { unsigned_abs result ≤ 44000000000000000 }
    {
        let term = self.at_prices(market);
        sum_of(&term, self.day.book.positions.as_slice())
    }

    // The reserve of all accounts together.
    fn reserve_total(&self, market: Market) -> i64
        ensures value { result ≡ sum_over (reserve (held self.now.day.now.book.now) market self.now.hour) (accounts (held self.now.day.now.book.now)) }
        ensures bound { unsigned_abs result ≤ 44000000000000000 }
    {
        let term = self.reserve_term(market);
        sum_of(&term, self.day.book.reserves.as_slice())
    }

    fn exchange_total(&self, market: Market) -> i64
        ensures value { result ≡ exchange (held self.now.day.now.book.now) market self.now.hour }
        ensures bound { unsigned_abs result ≤ 44000000000000000 }
    {
        let term = self.at_prices(market);
        sum_of(&term, self.day.book.interconnections.as_slice())
    }

    fn imbalance_total(&self) -> i64
        ensures value { result ≡ value_of_imbalance (held self.now.day.now.book.now) self.now.hour }
        ensures bound { unsigned_abs result ≤ 44000000000000000 }
    {
        let prices = &self.day.prices;
        let term = InHour {
            hour: self.hour,
            term: ImbalanceValueOf { prices },
        };
        sum_of(&term, self.day.book.interconnections.as_slice())
    }

    // What a market's energy leaves over, or lacks.
    fn surplus(&self, market: Market) -> i64
        ensures { result ≡ exchange (held self.now.day.now.book.now) market self.now.hour -ℤ sum_over (energy (held self.now.day.now.book.now) market self.now.hour) (accounts (held self.now.day.now.book.now)) }
    {
        self.exchange_total(market) - self.energy_total(market)
    }

    // The amount that a code shares.
    fn shared_amount(&self, code: Code) -> i64
        ensures { result ≡ shared (held self.now.day.now.book.now) self.now.hour code }
    {
        // Each code has its own amount: the match is the table of codes.
        match code {
            Code::A2 => self.surplus(Market::DayAhead),
            Code::A4 => -self.reserve_total(Market::DayAhead),
            Code::B2 => self.surplus(Market::RealTime),
            Code::B4 => -self.reserve_total(Market::RealTime),
            Code::F1 => -self.imbalance_total(),
            Code::A1 | Code::A3 | Code::B1 | Code::B3 => 0,
            Code::F2 | Code::F3 | Code::F4 | Code::F5 | Code::F6 => 0,
        }
    }

    // Has the code an amount to share, and nobody to share it by?
    fn lacks_weight(&self, code: Code) -> bool
        ensures { result ≡ lacks (held self.now.day.now.book.now) self.now.hour code }
    {
        let has_amount = self.shared_amount(code) != 0;
        match code.row().basis {
            Basis::Own => has_amount,
            Basis::Purchases => has_amount && !have_weight(self.weights()),
        }
    }

    // Has some code an amount to share, and nobody to share it by?
    pub(crate) fn is_lacking(&self) -> bool
        ensures { result ≡ lacking (held self.now.day.now.book.now) self.now.hour }
    {
        CODES.iter().any(|row| self.lacks_weight(row.code))
    }

    // Adds the parts of the amount that a code shares.
    pub(crate) fn add_shared<R: Sharing>(&self, rule: &R, code: Code, table: &mut Table)
        requires basis { basis_of code ≡ Purchases }
        requires borne { lacks (held self.now.day.now.book.now) self.now.hour code ≡ false }
        requires room { RoomIn table.old code }
        ensures { RowAdded table.old table.new code (amount_of self.now.day.now.book.now.heading.accounts (to_accounts (part (R.Sharing.parts rule.now) (held self.now.day.now.book.now) self.now.hour code))) }
    {
        // A fixed array cut to length: nothing may be allocated.
        let mut places = [0i64; ACCOUNTS];
        let shares = &mut places[..self.day.accounts()];
        share_out(rule, self.shared_amount(code), self.weights(), shares);
        add_listed(shares, code, table);
    }
}
