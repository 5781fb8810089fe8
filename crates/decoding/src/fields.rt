// The fields of each kind of record, taken apart. Every function here is given a record of the length that its mark has.
ghost use Rattle.std.specs.Prelude.{◌≡◌, ◌+◌, ◌≤◌, length, drop, take};
ghost use Rattle.decoding.specs.Decoded.{position_or_fault};
ghost use Rattle.decoding.specs.Fields.{failure_in, fine_in, four_bytes, heading_in, interconnection_in, price_in, reserve_in, two_bytes};

use dayfile::heading::Heading;
use dayfile::record::{Class, Failure, Fine, Interconnection, Position, Price, Reserve};
use faults::fault::{Fault, Place};
use faults::refusal::Refusal;

// The N bytes from an index on.
fn bytes_at<const N: usize>(bytes: &[u8], i: usize) -> [u8; N]
    requires { i + N ≤ length bytes.now }
    ensures { result ≡ take N (drop i bytes.now) }
{
    *bytes[i..].first_chunk().unwrap()
}

// The number in the four bytes from an index on.
fn number(bytes: &[u8], i: usize) -> u32
    requires { i + 4 ≤ length bytes.now }
    ensures { result ≡ four_bytes bytes.now i }
{
    u32::from_be_bytes(bytes_at(bytes, i))
}

pub fn heading(bytes: &[u8]) -> Option<Heading>
    requires { length bytes.now ≡ 10 }
    ensures { result ≡ heading_in bytes.now }
{
    let year = u16::from_be_bytes(bytes_at(bytes, 2));
    Heading::new(
        year, bytes[4], bytes[5], bytes[6], bytes[7], bytes[8], bytes[9],
    )
}

pub fn price(bytes: &[u8]) -> Price
    requires { length bytes.now ≡ 12 }
    ensures { result ≡ price_in bytes.now }
{
    Price {
        node: bytes[2],
        hour: bytes[3],
        day_ahead: number(bytes, 4).cast_signed(),
        real_time: number(bytes, 8).cast_signed(),
    }
}

pub fn position(bytes: &[u8]) -> Result<Position, Fault>
    requires { length bytes.now ≡ 14 }
    ensures { result ≡ position_or_fault bytes.now }
{
    let place = Place::new(bytes[2], bytes[3], bytes[4]);
    let class = Class::try_from(bytes[5]).map_err(|_| Fault::new(Refusal::OutOfRange, place))?;
    Ok(Position {
        account: bytes[2],
        node: bytes[3],
        hour: bytes[4],
        class,
        day_ahead: number(bytes, 6),
        real_time: number(bytes, 10),
    })
}

pub fn interconnection(bytes: &[u8]) -> Interconnection
    requires { length bytes.now ≡ 26 }
    ensures { result ≡ interconnection_in bytes.now }
{
    Interconnection {
        interconnection: bytes[2],
        system: bytes[3],
        node: bytes[4],
        hour: bytes[5],
        day_ahead_export: number(bytes, 6),
        day_ahead_import: number(bytes, 10),
        real_time_export: number(bytes, 14),
        real_time_import: number(bytes, 18),
        imbalance_price: number(bytes, 22).cast_signed(),
    }
}

pub fn reserve(bytes: &[u8]) -> Reserve
    requires { length bytes.now ≡ 22 }
    ensures { result ≡ reserve_in bytes.now }
{
    Reserve {
        account: bytes[2],
        unit: bytes[3],
        kind: bytes[4],
        hour: bytes[5],
        day_ahead_price: number(bytes, 6),
        day_ahead: number(bytes, 10),
        real_time_price: number(bytes, 14),
        real_time: number(bytes, 18),
    }
}

pub fn failure(bytes: &[u8]) -> Failure
    requires { length bytes.now ≡ 4 }
    ensures { result ≡ failure_in bytes.now }
{
    Failure {
        unit: bytes[2],
        kind: bytes[3],
    }
}

pub fn fine(bytes: &[u8]) -> Fine
    requires { length bytes.now ≡ 15 }
    ensures { result ≡ fine_in bytes.now }
{
    Fine {
        identifier: number(bytes, 2),
        account: bytes[6],
        centavos: u64::from_be_bytes(bytes_at(bytes, 7)),
    }
}

// The count of an end record.
pub fn count(bytes: &[u8]) -> u16
    requires { length bytes.now ≡ 4 }
    ensures { result ≡ two_bytes bytes.now 2 }
{
    u16::from_be_bytes(bytes_at(bytes, 2))
}
