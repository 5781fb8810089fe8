// Prices of a node in an hour, and the records that lack one.
ghost use Rattle.std.specs.Prelude.{◌≡◌, ◌<◌, ◌++◌, not, find, length, map, IfSome};
ghost use Rattle.rows.specs.Tables.{first_place};
ghost use Rattle.book.specs.Books.{held};
ghost use Rattle.closing.specs.Prices.{first_unpriced, has_price, interconnection_place, is_price_of, position_place};

use book::book::Book;
use dayfile::record::{Price, Record};
use decoding::decode::place_of;
use faults::fault::Place;

fn is_price_of(p: &Price, node: u8, hour: u8) -> bool
    ensures { result ≡ is_price_of node hour p.now }
{
    node == p.node && hour == p.hour
}

// Where the price of the node in the hour stands.
pub fn find_price(prices: &[Price], node: u8, hour: u8) -> Option<usize>
    ensures value { result ≡ first_place (is_price_of node hour) prices.now }
    ensures within { IfSome result (λ i. i < length prices.now) }
{
    prices.iter().position(|p| is_price_of(p, node, hour))
}

// The first place without a price among those of the positions and then of the interconnection records.
fn first_without_price(book: &Book) -> Option<Place>
    ensures { result ≡ find (λ p. not (has_price (held book.now).prices p.node p.hour)) (map position_place (held book.now).positions ++ map interconnection_place (held book.now).interconnections) }
{
    let prices = book.prices.as_slice();
    let positions = book
        .positions
        .iter()
        .map(|x| place_of(&Record::Position(*x)));
    let exchanges = book
        .interconnections
        .iter()
        .map(|x| place_of(&Record::Interconnection(*x)));
    positions.chain(exchanges).find(|place| find_price(prices, place.node, place.hour).is_none())
}

// The place of the first position without a price, or else of the first interconnection record without one.
pub fn first_unpriced(book: &Book) -> Option<Place>
    ensures { result ≡ first_unpriced (held book.now) }
{
    first_without_price(book)
}
