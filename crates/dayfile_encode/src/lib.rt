// The records of the day file, written as bytes. Each function answers the bytes of its record, and ensures that decoding
// them gives the record back. The arrays are written out: what joins bytes of any number takes memory.
#![tactic(auto)]

ghost use Rattle.std.specs.Prelude.{◌≡◌, Ok};
ghost use Rattle.decoding.specs.Decoded.{decoded_end, decoded_heading, decoded_record};
ghost use Rattle.dayfile_encode.specs.Encoded.{end_bytes, failure_bytes, fine_bytes, heading_bytes, interconnection_bytes, position_bytes, price_bytes, reserve_bytes};

use dayfile::heading::Heading;
use dayfile::mark::Mark;
use dayfile::record::{Failure, Fine, Interconnection, Position, Price, Record, Reserve};

pub fn encode_heading(heading: Heading) -> [u8; 10]
    ensures bytes { result ≡ heading_bytes heading }
    ensures back { decoded_heading result ≡ Ok heading }
{
    let [m1, m0] = <[u8; 2]>::from(Mark::Day);
    let [y1, y0] = heading.year.to_be_bytes();
    [
        m1,
        m0,
        y1,
        y0,
        heading.month,
        heading.day,
        heading.hours,
        heading.accounts,
        heading.nodes,
        heading.interconnections,
    ]
}

pub fn encode_price(price: Price) -> [u8; 12]
    ensures bytes { result ≡ price_bytes price }
    ensures back { decoded_record result ≡ Ok (Record.Price price) }
{
    let [m1, m0] = <[u8; 2]>::from(Mark::Price);
    let [a3, a2, a1, a0] = price.day_ahead.to_be_bytes();
    let [r3, r2, r1, r0] = price.real_time.to_be_bytes();
    [
        m1, m0, price.node, price.hour, a3, a2, a1, a0, r3, r2, r1, r0,
    ]
}

pub fn encode_position(position: Position) -> [u8; 14]
    ensures bytes { result ≡ position_bytes position }
    ensures back { decoded_record result ≡ Ok (Record.Position position) }
{
    let [m1, m0] = <[u8; 2]>::from(Mark::Position);
    let class = u8::from(position.class);
    let [a3, a2, a1, a0] = position.day_ahead.to_be_bytes();
    let [r3, r2, r1, r0] = position.real_time.to_be_bytes();
    [
        m1,
        m0,
        position.account,
        position.node,
        position.hour,
        class,
        a3,
        a2,
        a1,
        a0,
        r3,
        r2,
        r1,
        r0,
    ]
}

pub fn encode_interconnection(exchange: Interconnection) -> [u8; 26]
    ensures bytes { result ≡ interconnection_bytes exchange }
    ensures back { decoded_record result ≡ Ok (Record.Interconnection exchange) }
{
    let [m1, m0] = <[u8; 2]>::from(Mark::Interconnection);
    let [a3, a2, a1, a0] = exchange.day_ahead_export.to_be_bytes();
    let [b3, b2, b1, b0] = exchange.day_ahead_import.to_be_bytes();
    let [c3, c2, c1, c0] = exchange.real_time_export.to_be_bytes();
    let [d3, d2, d1, d0] = exchange.real_time_import.to_be_bytes();
    let [p3, p2, p1, p0] = exchange.imbalance_price.to_be_bytes();
    [
        m1,
        m0,
        exchange.interconnection,
        exchange.system,
        exchange.node,
        exchange.hour,
        a3,
        a2,
        a1,
        a0,
        b3,
        b2,
        b1,
        b0,
        c3,
        c2,
        c1,
        c0,
        d3,
        d2,
        d1,
        d0,
        p3,
        p2,
        p1,
        p0,
    ]
}

pub fn encode_reserve(reserve: Reserve) -> [u8; 22]
    ensures bytes { result ≡ reserve_bytes reserve }
    ensures back { decoded_record result ≡ Ok (Record.Reserve reserve) }
{
    let [m1, m0] = <[u8; 2]>::from(Mark::Reserve);
    let [a3, a2, a1, a0] = reserve.day_ahead_price.to_be_bytes();
    let [b3, b2, b1, b0] = reserve.day_ahead.to_be_bytes();
    let [c3, c2, c1, c0] = reserve.real_time_price.to_be_bytes();
    let [d3, d2, d1, d0] = reserve.real_time.to_be_bytes();
    [
        m1,
        m0,
        reserve.account,
        reserve.unit,
        reserve.kind,
        reserve.hour,
        a3,
        a2,
        a1,
        a0,
        b3,
        b2,
        b1,
        b0,
        c3,
        c2,
        c1,
        c0,
        d3,
        d2,
        d1,
        d0,
    ]
}

pub fn encode_failure(failure: Failure) -> [u8; 4]
    ensures bytes { result ≡ failure_bytes failure }
    ensures back { decoded_record result ≡ Ok (Record.Failure failure) }
{
    let [m1, m0] = <[u8; 2]>::from(Mark::Failure);
    [m1, m0, failure.unit, failure.kind]
}

pub fn encode_fine(fine: Fine) -> [u8; 15]
    ensures bytes { result ≡ fine_bytes fine }
    ensures back { decoded_record result ≡ Ok (Record.Fine fine) }
{
    let [m1, m0] = <[u8; 2]>::from(Mark::Fine);
    let [i3, i2, i1, i0] = fine.identifier.to_be_bytes();
    let [c7, c6, c5, c4, c3, c2, c1, c0] = fine.centavos.to_be_bytes();
    [
        m1,
        m0,
        i3,
        i2,
        i1,
        i0,
        fine.account,
        c7,
        c6,
        c5,
        c4,
        c3,
        c2,
        c1,
        c0,
    ]
}

// The end record of a file with so many records before it.
pub fn encode_end(count: u16) -> [u8; 4]
    ensures bytes { result ≡ end_bytes count }
    ensures back { decoded_end result ≡ Ok count }
{
    let [m1, m0] = <[u8; 2]>::from(Mark::End);
    let [high, low] = count.to_be_bytes();
    [m1, m0, high, low]
}
