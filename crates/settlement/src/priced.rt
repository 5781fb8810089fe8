// A book whose records all have their prices, and an hour of it.
ghost use Rattle.std.specs.Prelude.{◌≡◌, ◌≤◌, true, None, MatchResult, Some, take};
ghost use Rattle.book.specs.Books.{held};
ghost use Rattle.book.specs.Soundness.{sound_records};
ghost use Rattle.closing.specs.Prices.{first_unpriced};
ghost use Rattle.codes.specs.declared.code.Basis.TheVariants.{Purchases};
ghost use Rattle.amounts.specs.Amounts.{weights};
ghost use Rattle.settlement.specs.Days.{no_purchases, or_unpriced};

use amounts::purchases::put_purchases;
use amounts::scope::{AtPrices, InHour, ReserveOf};
use book::book::Book;
use closing::prices::first_unpriced;
use codes::party::ACCOUNTS;
use faults::fault::{Fault, Place};
use faults::refusal::Refusal;
use price_grid::grid::PriceGrid;
use valuation::market::Market;

// The refusal of an hour with an amount to share and nobody to share it by.
pub(crate) fn no_purchases(hour: u8) -> Fault
    ensures { result ≡ no_purchases hour }
{
    Fault::new(Refusal::NoPurchases, Place::new(0, 0, hour))
}

// A sound book, with its prices by node and hour.
#[derive(Drop)]
pub(crate) struct PricedBook<'a> {
    pub book: &'a Book,
    pub prices: PriceGrid<'a>,
    ghost sound: { sound_records (held book.now) ≡ true },
    ghost priced: { prices.prices.now ≡ (held book.now).prices },
}

impl<'a> PricedBook<'a> {
    // The book with its prices; refused where a record has none.
    pub fn of(book: &'a Book) -> Result<PricedBook<'a>, Fault>
        requires { sound_records (held book.now) ≡ true }
        ensures { MatchResult result (λ day. (first_unpriced (held book.now) ≡ None) × (day.book.now ≡ book.now)) (λ fault. Some fault ≡ or_unpriced (held book.now) None) }
    {
        // None is the good answer here, so no `ok_or`.
        match first_unpriced(book) {
            Some(place) => Err(Fault::new(Refusal::NoPrice, place)),
            None => Ok(PricedBook {
                book,
                prices: PriceGrid::of(book.prices.as_slice()),
            }),
        }
    }

    // How many accounts the day has.
    pub fn accounts(&self) -> usize
        ensures value { result ≡ self.now.book.now.heading.accounts }
        ensures few { result ≤ 32 }
    {
        usize::from(self.book.heading.accounts)
    }

    // An hour of the day.
    pub fn hour(&'a self, hour: u8) -> PricedHour<'a>
        ensures day { result.day.now ≡ self.now }
        ensures hour { result.hour ≡ hour }
    {
        let mut purchases = [0u64; ACCOUNTS];
        put_purchases(
            self.book.positions.as_slice(),
            hour,
            &mut purchases[..self.accounts()],
        );
        PricedHour {
            day: self,
            hour,
            purchases,
        }
    }
}

// An hour of a book, with the physical purchases of its accounts, account 1 first. The array has room for every account
// that a day can have, since nothing may be allocated.
#[derive(Drop)]
pub(crate) struct PricedHour<'a> {
    pub day: &'a PricedBook<'a>,
    pub hour: u8,
    purchases: [u64; ACCOUNTS],
    ghost weighed: { take day.now.book.now.heading.accounts purchases ≡ weights Purchases (held day.now.book.now) hour },
}

impl<'a> PricedHour<'a> {
    // What a record of energy adds to an amount of the hour in a market.
    pub fn at_prices(&self, market: Market) -> InHour<AtPrices<'a>>
        ensures hour { result.hour ≡ self.now.hour }
        ensures prices { result.term.prices.now ≡ self.now.day.now.prices }
        ensures market { result.term.market ≡ market }
    {
        let day = self.day;
        let term = AtPrices {
            prices: &day.prices,
            market,
        };
        InHour {
            hour: self.hour,
            term,
        }
    }

    // What a reserve adds to an amount of the hour in a market.
    pub fn reserve_term(&self, market: Market) -> InHour<ReserveOf>
        ensures hour { result.hour ≡ self.now.hour }
        ensures market { result.term.market ≡ market }
    {
        InHour {
            hour: self.hour,
            term: ReserveOf { market },
        }
    }

    // By what each account shares, account 1 first.
    pub fn weights(&self) -> &[u64]
        ensures { result.now ≡ weights Purchases (held self.now.day.now.book.now) self.now.hour }
    {
        &self.purchases[..self.day.accounts()]
    }
}
