// What a record adds to an amount of an hour.
ghost use Rattle.std.specs.Prelude.{◌≡◌, ℕ, pos, neg_ℤ, if◌then◌else◌, nat_eq};
ghost use Rattle.std.specs.List.{AllByRecursion};
ghost use Rattle.valuation.specs.Terms.{exchange_term, imbalance_term, imbalance_value, position_term, reserve_term};
ghost use Rattle.valuation.specs.Valid.{ValidInterconnection, ValidPosition, ValidPrice, ValidReserve};

use crate::sums::Term;
use dayfile::record::{Interconnection, Position, Reserve};
use price_grid::grid::PriceGrid;
use valuation::market::Market;
use valuation::terms::{
    exchange_term, imbalance_term, imbalance_value, position_term, reserve_term,
};

// A record of an hour of the day. Each kind of record has its own fields, so each says where its hour stands.
pub trait Hourly {
    ghost hour: { Self → ℕ };

    fn hour(&self) -> u8
        ensures { result ≡ hour self.now };
}

impl Hourly for Position {
    ghost hour = { λ x. x.hour };

    fn hour(&self) -> u8 {
        self.hour
    }
}

impl Hourly for Interconnection {
    ghost hour = { λ x. x.hour };

    fn hour(&self) -> u8 {
        self.hour
    }
}

impl Hourly for Reserve {
    ghost hour = { λ x. x.hour };

    fn hour(&self) -> u8 {
        self.hour
    }
}

// The term of a record that is of the hour, and 0 of any other.
#[derive(Clone, Copy)]
pub struct InHour<T> {
    pub hour: u8,
    pub term: T,
}

impl<X: Hourly, T: Term<X>> Term<X> for InHour<T> {
    ghost adds = { λ s x. (if nat_eq (X.hour x) s.hour then T.Term.adds s.term x else pos 0) };

    ghost valid = { λ s x. T.Term.valid s.term x };

    fn term(&self, x: &X) -> i64 {
        if x.hour() == self.hour {
            self.term.term(x)
        } else {
            0
        }
    }
}

// A term with its sign turned.
#[derive(Clone, Copy)]
pub struct Negated<T> {
    pub term: T,
}

impl<X, T: Term<X>> Term<X> for Negated<T> {
    ghost adds = { λ s x. neg_ℤ (T.Term.adds s.term x) };

    ghost valid = { λ s x. T.Term.valid s.term x };

    fn term(&self, x: &X) -> i64 {
        -self.term.term(x)
    }
}

// A record of energy at the prices of a market.
#[derive(Clone, Copy)]
pub struct AtPrices<'a> {
    pub prices: &'a PriceGrid<'a>,
    pub market: Market,
}

// Energy, or its deviation.
impl<'a> Term<Position> for AtPrices<'a> {
    ghost adds = { λ s x. position_term s.prices.now.prices.now s.market x };

    ghost valid = { λ s x. AllByRecursion ValidPrice s.prices.now.prices.now × ValidPosition x };

    fn term(&self, x: &Position) -> i64 {
        position_term(self.prices, self.market, x)
    }
}

// The exchange, or its deviation.
impl<'a> Term<Interconnection> for AtPrices<'a> {
    ghost adds = { λ s x. exchange_term s.prices.now.prices.now s.market x };

    ghost valid = { λ s x. AllByRecursion ValidPrice s.prices.now.prices.now × ValidInterconnection x };

    fn term(&self, x: &Interconnection) -> i64 {
        exchange_term(self.prices, self.market, x)
    }
}

// Reserve, or its deviation.
#[derive(Clone, Copy)]
pub struct ReserveOf {
    pub market: Market,
}

impl Term<Reserve> for ReserveOf {
    ghost adds = { λ s x. reserve_term s.market x };

    ghost valid = { λ s x. ValidReserve x };

    fn term(&self, x: &Reserve) -> i64 {
        reserve_term(self.market, x)
    }
}

// The value of the imbalance.
#[derive(Clone, Copy)]
pub struct ImbalanceValueOf<'a> {
    pub prices: &'a PriceGrid<'a>,
}

impl<'a> Term<Interconnection> for ImbalanceValueOf<'a> {
    ghost adds = { λ s x. imbalance_value s.prices.now.prices.now x };

    ghost valid = { λ s x. AllByRecursion ValidPrice s.prices.now.prices.now × ValidInterconnection x };

    fn term(&self, x: &Interconnection) -> i64 {
        imbalance_value(self.prices, x)
    }
}

// An external system's imbalance.
#[derive(Clone, Copy)]
pub struct ImbalanceOf;

impl Term<Interconnection> for ImbalanceOf {
    ghost adds = { λ s x. imbalance_term x };

    ghost valid = { λ s x. ValidInterconnection x };

    fn term(&self, x: &Interconnection) -> i64 {
        imbalance_term(x)
    }
}
