// The prices of a day by node and hour, so that a price is found in one step.
ghost use Rattle.std.specs.Prelude.{◌≡◌, ◌<◌, if◌then◌else◌, Some, None, IfSome};
ghost use Rattle.dayfile.specs.declared.record.Price.{Price};
ghost use Rattle.price_grid.specs.Grid.{Indexes, PutPrice, is_spot, spot_place};
ghost use Rattle.price_grid.specs.Found.{price_at};

use closing::prices::find_price;
use dayfile::record::Price;

const SPOTS: usize = 400;

// Where the price of a node in an hour stands, if a day can have them. Node and hour and no pair of the two: they come apart
// from records and calls, and a pair would be made for this step alone.
fn place_of(node: u8, hour: u8) -> Option<usize>
    ensures value { result ≡ (if is_spot node hour then Some (spot_place node hour) else None) }
    ensures below { IfSome result (λ place. place < 400) }
{
    if matches!(node, 1..=16) && matches!(hour, 1..=25) {
        Some(usize::from(node) * 25 + usize::from(hour) - 26)
    } else {
        None
    }
}

fn put_price(spots: &mut [Option<Price>; SPOTS], p: Price)
    ensures { PutPrice spots.old p spots.new }
{
    if let Some(place) = place_of(p.node, p.hour) {
        spots[place] = Some(p);
    }
}

// Each price at its node and hour; of two for one spot the first stays.
fn index_prices(prices: &[Price]) -> [Option<Price>; SPOTS]
    ensures { Indexes result prices.now }
{
    let mut spots = [None; SPOTS];
    for p in prices.iter().rev() {
        put_price(&mut spots, *p);
    }
    spots
}

// The prices, and the one that stands at each node and hour.
#[derive(Drop)]
pub struct PriceGrid<'a> {
    pub prices: &'a [Price],
    pub spots: [Option<Price>; SPOTS],
    ghost right: { Indexes spots prices.now },
}

// The price of a node in an hour by search. `find_price` answers a place, as callers of closing want it.
fn search_price(prices: &[Price], node: u8, hour: u8) -> Option<Price>
    ensures { result ≡ price_at prices.now node hour }
{
    find_price(prices, node, hour).map(|i| prices[i])
}

impl<'a> PriceGrid<'a> {
    pub fn of(prices: &'a [Price]) -> PriceGrid<'a>
        ensures { result.prices.now ≡ prices.now }
    {
        PriceGrid {
            prices,
            spots: index_prices(prices),
        }
    }

    // The price of a node in an hour.
    pub fn price_at(&self, node: u8, hour: u8) -> Option<Price>
        ensures { result ≡ price_at self.now.prices.now node hour }
    {
        match place_of(node, hour) {
            Some(place) => self.spots[place],
            None => search_price(self.prices, node, hour),
        }
    }
}
