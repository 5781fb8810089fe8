// What one record comes to. What callers know of a valid record stands in the contracts that they see, so a struct that
// carries it would serve the few private functions alone. `ValidPrice` is defined above the price grid, which cannot carry it.
ghost use Rattle.std.specs.Prelude.{◌≡◌, ◌≤◌, pos, ◌-ℤ◌, ◌*ℤ◌, Some, unsigned_abs};
ghost use Rattle.std.specs.List.{AllByRecursion};
ghost use Rattle.valuation.specs.Terms.{class_buys, class_sign, energy_in, exchange_energy, exchange_term, failed_term, fine_mils, imbalance_term, imbalance_value, market_price, net_export, position_term, price_in, reserve_price, reserve_term};
ghost use Rattle.valuation.specs.Valid.{ValidFine, ValidInterconnection, ValidPosition, ValidPrice, ValidReserve};

use crate::market::Market;
use dayfile::record::{Class, Fine, Interconnection, Position, Price, Reserve};
use price_grid::grid::PriceGrid;

// Is energy of the class bought?
pub fn is_bought(class: Class) -> bool
    ensures { result ≡ class_buys class }
{
    matches!(class, Class::Load | Class::Export)
}

// 1 for energy put into the system, −1 for energy taken out.
fn sign(class: Class) -> i64
    ensures value { result ≡ class_sign class }
    ensures bound { unsigned_abs result ≤ 1 }
{
    if is_bought(class) { -1 } else { 1 }
}

fn difference(a: u32, b: u32) -> i64
    ensures { result ≡ pos a -ℤ pos b }
{
    i64::from(a) - i64::from(b)
}

// What a market settles of a quantity: that of the day before, and in real time the deviation from it.
fn energy_in(market: Market, day_ahead: u32, real_time: u32) -> i64
    requires day { day_ahead ≤ 2000000 }
    requires real { real_time ≤ 2000000 }
    ensures value { result ≡ energy_in market day_ahead real_time }
    ensures bound { unsigned_abs result ≤ 2000000 }
{
    match market {
        Market::DayAhead => i64::from(day_ahead),
        Market::RealTime => difference(real_time, day_ahead),
    }
}

// Each record has fields and types of its own, so each has its match on the market.
fn price_in(market: Market, p: Price) -> i64
    requires { ValidPrice p }
    ensures value { result ≡ price_in market (Some p) }
    ensures bound { unsigned_abs result ≤ 10000000 }
{
    match market {
        Market::DayAhead => i64::from(p.day_ahead),
        Market::RealTime => i64::from(p.real_time),
    }
}

// The price of a node and an hour in a market.
fn price_for(prices: &PriceGrid, market: Market, node: u8, hour: u8) -> i64
    requires { AllByRecursion ValidPrice prices.now.prices.now }
    ensures value { result ≡ market_price prices.now.prices.now market node hour }
    ensures bound { unsigned_abs result ≤ 10000000 }
{
    prices
        .price_at(node, hour)
        .map_or(0, |p| price_in(market, p))
}

// What a position comes to in a market.
pub fn position_term(prices: &PriceGrid, market: Market, x: &Position) -> i64
    requires prices { AllByRecursion ValidPrice prices.now.prices.now }
    requires position { ValidPosition x.now }
    ensures value { result ≡ position_term prices.now.prices.now market x.now }
    ensures bound { unsigned_abs result ≤ 20000000000000 }
{
    let energy = energy_in(market, x.day_ahead, x.real_time);
    sign(x.class) * price_for(prices, market, x.node, x.hour) * energy
}

fn reserve_price(market: Market, x: &Reserve) -> i64
    requires { ValidReserve x.now }
    ensures value { result ≡ reserve_price market x.now }
    ensures bound { unsigned_abs result ≤ 10000000 }
{
    match market {
        Market::DayAhead => i64::from(x.day_ahead_price),
        Market::RealTime => i64::from(x.real_time_price),
    }
}

// What a reserve comes to in a market.
pub fn reserve_term(market: Market, x: &Reserve) -> i64
    requires { ValidReserve x.now }
    ensures value { result ≡ reserve_term market x.now }
    ensures bound { unsigned_abs result ≤ 20000000000000 }
{
    reserve_price(market, x) * energy_in(market, x.day_ahead, x.real_time)
}

// What a reserve that failed came to in both markets.
pub fn failed_term(x: &Reserve) -> i64
    requires { ValidReserve x.now }
    ensures value { result ≡ failed_term x.now }
    ensures bound { unsigned_abs result ≤ 40000000000000 }
{
    reserve_term(Market::DayAhead, x) + reserve_term(Market::RealTime, x)
}

// Export less import.
fn net_export(market: Market, x: &Interconnection) -> i64
    requires { ValidInterconnection x.now }
    ensures value { result ≡ net_export market x.now }
    ensures bound { unsigned_abs result ≤ 2000000 }
{
    match market {
        Market::DayAhead => difference(x.day_ahead_export, x.day_ahead_import),
        Market::RealTime => difference(x.real_time_export, x.real_time_import),
    }
}

fn exchange_energy(market: Market, x: &Interconnection) -> i64
    requires { ValidInterconnection x.now }
    ensures value { result ≡ exchange_energy market x.now }
    ensures bound { unsigned_abs result ≤ 4000000 }
{
    match market {
        Market::DayAhead => net_export(Market::DayAhead, x),
        Market::RealTime => net_export(Market::RealTime, x) - net_export(Market::DayAhead, x),
    }
}

// What an exchange comes to at a market's price.
pub fn exchange_term(prices: &PriceGrid, market: Market, x: &Interconnection) -> i64
    requires prices { AllByRecursion ValidPrice prices.now.prices.now }
    requires interconnection { ValidInterconnection x.now }
    ensures value { result ≡ exchange_term prices.now.prices.now market x.now }
    ensures bound { unsigned_abs result ≤ 40000000000000 }
{
    price_for(prices, market, x.node, x.hour) * exchange_energy(market, x)
}

// Imbalance price × real-time net export.
pub fn imbalance_term(x: &Interconnection) -> i64
    requires { ValidInterconnection x.now }
    ensures value { result ≡ imbalance_term x.now }
    ensures bound { unsigned_abs result ≤ 20000000000000 }
{
    i64::from(x.imbalance_price) * net_export(Market::RealTime, x)
}

// One market's price × another's net export.
fn priced_export(prices: &PriceGrid, price: Market, flow: Market, x: &Interconnection) -> i64
    requires prices { AllByRecursion ValidPrice prices.now.prices.now }
    requires interconnection { ValidInterconnection x.now }
    ensures value { result ≡ market_price prices.now.prices.now price x.now.node x.now.hour *ℤ net_export flow x.now }
    ensures bound { unsigned_abs result ≤ 20000000000000 }
{
    price_for(prices, price, x.node, x.hour) * net_export(flow, x)
}

// The value of the imbalance.
#[tactic(auto, using(crate::proofs::Products::four_is))]
pub fn imbalance_value(prices: &PriceGrid, x: &Interconnection) -> i64
    requires prices { AllByRecursion ValidPrice prices.now.prices.now }
    requires interconnection { ValidInterconnection x.now }
    ensures value { result ≡ imbalance_value prices.now.prices.now x.now }
    ensures bound { unsigned_abs result ≤ 80000000000000 }
{
    let scheduled = priced_export(prices, Market::DayAhead, Market::DayAhead, x);
    let metered = priced_export(prices, Market::RealTime, Market::RealTime, x);
    let replaced = priced_export(prices, Market::RealTime, Market::DayAhead, x);
    scheduled + metered - replaced - imbalance_term(x)
}

// A fine in mils.
pub fn fine_mils(x: &Fine) -> i64
    requires { ValidFine x.now }
    ensures value { result ≡ fine_mils x.now }
    ensures bound { unsigned_abs result ≤ 1000000000000000 }
{
    (x.centavos * 1000).cast_signed()
}
