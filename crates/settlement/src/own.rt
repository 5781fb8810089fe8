// Amounts of an hour that are not shared: what each party's own records come to.
ghost use Rattle.std.specs.Prelude.{neg_ℤ};
ghost use Rattle.book.specs.Books.{held};
ghost use Rattle.amounts.specs.Amounts.{energy, imbalance, reserve};
ghost use Rattle.settlement.specs.Grown.{RoomIn, RowAdded};
ghost use Rattle.settlement.specs.Sheets.{amount_of, own, to_accounts, to_systems};

use crate::adding::add_each;
use crate::priced::PricedHour;
use amounts::scope::{ImbalanceOf, InHour, Negated};
use codes::code::Code;
use codes::table::Table;
use valuation::market::Market;

impl<'a> PricedHour<'a> {
    fn add_energy(&self, market: Market, code: Code, table: &mut Table)
        requires { RoomIn table.old code }
        ensures { RowAdded table.old table.new code (amount_of self.now.day.now.book.now.heading.accounts (to_accounts (energy (held self.now.day.now.book.now) market self.now.hour))) }
    {
        let term = self.at_prices(market);
        add_each(&term, self.day.book.positions.as_slice(), code, table);
    }

    fn add_reserve(&self, market: Market, code: Code, table: &mut Table)
        requires { RoomIn table.old code }
        ensures { RowAdded table.old table.new code (amount_of self.now.day.now.book.now.heading.accounts (to_accounts (reserve (held self.now.day.now.book.now) market self.now.hour))) }
    {
        let term = self.reserve_term(market);
        add_each(&term, self.day.book.reserves.as_slice(), code, table);
    }

    fn add_imbalance(&self, code: Code, table: &mut Table)
        requires { RoomIn table.old code }
        ensures { RowAdded table.old table.new code (amount_of self.now.day.now.book.now.heading.accounts (to_systems (λ system. neg_ℤ (imbalance (held self.now.day.now.book.now) self.now.hour system)))) }
    {
        let term = Negated {
            term: InHour {
                hour: self.hour,
                term: ImbalanceOf,
            },
        };
        add_each(
            &term,
            self.day.book.interconnections.as_slice(),
            code,
            table,
        );
    }

    // Adds what the parties' own records come to under a code.
    pub(crate) fn add_own(&self, code: Code, table: &mut Table)
        requires { RoomIn table.old code }
        ensures { RowAdded table.old table.new code (amount_of self.now.day.now.book.now.heading.accounts (own (held self.now.day.now.book.now) self.now.hour code)) }
    {
        // Each code has its own amount: the match is the table of codes.
        match code {
            Code::A1 => self.add_energy(Market::DayAhead, code, table),
            Code::A3 => self.add_reserve(Market::DayAhead, code, table),
            Code::B1 => self.add_energy(Market::RealTime, code, table),
            Code::B3 => self.add_reserve(Market::RealTime, code, table),
            Code::F2 => self.add_imbalance(code, table),
            Code::A2 | Code::A4 | Code::B2 | Code::B4 => {}
            Code::F1 | Code::F3 | Code::F4 | Code::F5 | Code::F6 => {}
        }
    }
}
