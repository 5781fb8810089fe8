// The six kinds of record as rows of a table.
ghost use Rattle.std.specs.Prelude.{◌≡◌, refl};
ghost use Rattle.rows.specs.Kinds.{energy_in_range, failure_room, failure_terms, fine_in_range, fine_room, fine_terms, interconnection_room, interconnection_terms, kind_in_range, position_room, position_terms, price_in_range, price_room, price_terms, reserve_price_in_range, reserve_room, reserve_terms, unit_in_range};

use crate::row::Row;
use dayfile::heading::Heading;
use dayfile::record::{Failure, Fine, Interconnection, Position, Price, Reserve};

// The largest quantity of energy in a record, in kWh.
pub const ENERGY_LIMIT: u32 = 2_000_000;
// The largest price, in centavos per MWh; a price that may be negative is at least the same below 0.
pub const PRICE_LIMIT: i32 = 10_000_000;

pub const RESERVE_PRICE_LIMIT: u32 = 10_000_000;
// The largest fine, in centavos.
pub const FINE_LIMIT: u64 = 1_000_000_000_000;

// Is this a quantity of energy, in kWh, that a record may have?
pub fn is_energy(kwh: u32) -> bool
    ensures { result ≡ energy_in_range kwh }
{
    kwh <= ENERGY_LIMIT
}

fn is_price(price: i32) -> bool
    ensures { result ≡ price_in_range price }
{
    (-PRICE_LIMIT..=PRICE_LIMIT).contains(&price)
}

fn is_reserve_price(price: u32) -> bool
    ensures { result ≡ reserve_price_in_range price }
{
    price <= RESERVE_PRICE_LIMIT
}

fn is_fine(centavos: u64) -> bool
    ensures { result ≡ fine_in_range centavos }
{
    (1..=FINE_LIMIT).contains(&centavos)
}

fn is_unit(unit: u8) -> bool
    ensures { result ≡ unit_in_range unit }
{
    (1..=64).contains(&unit)
}

fn is_kind(kind: u8) -> bool
    ensures { result ≡ kind_in_range kind }
{
    (1..=5).contains(&kind)
}

impl Row for Price {
    ghost terms = { price_terms };

    ghost ROOM = { price_room };

    ghost room_is = { refl };

    const ROOM: usize = 400;

    fn is_alike(&self, other: &Price) -> bool {
        self.node == other.node && self.hour == other.hour
    }

    fn is_in_range(&self) -> bool {
        self.node >= 1 && self.hour >= 1 && is_price(self.day_ahead) && is_price(self.real_time)
    }

    fn is_listed(&self, heading: &Heading) -> bool {
        self.node <= heading.nodes && self.hour <= heading.hours
    }
}

impl Row for Position {
    ghost terms = { position_terms };

    ghost ROOM = { position_room };

    ghost room_is = { refl };

    const ROOM: usize = 1000;

    fn is_alike(&self, other: &Position) -> bool {
        self.account == other.account
            && self.node == other.node
            && self.hour == other.hour
            && self.class == other.class
    }

    fn is_in_range(&self) -> bool {
        self.account >= 1
            && self.node >= 1
            && self.hour >= 1
            && is_energy(self.day_ahead)
            && is_energy(self.real_time)
    }

    fn is_listed(&self, heading: &Heading) -> bool {
        self.account <= heading.accounts && self.node <= heading.nodes && self.hour <= heading.hours
    }
}

impl Row for Interconnection {
    ghost terms = { interconnection_terms };

    ghost ROOM = { interconnection_room };

    ghost room_is = { refl };

    const ROOM: usize = 200;

    fn is_alike(&self, other: &Interconnection) -> bool {
        self.interconnection == other.interconnection && self.hour == other.hour
    }

    fn is_in_range(&self) -> bool {
        self.interconnection >= 1
            && (1..=4).contains(&self.system)
            && self.node >= 1
            && self.hour >= 1
            && is_energy(self.day_ahead_export)
            && is_energy(self.day_ahead_import)
            && is_energy(self.real_time_export)
            && is_energy(self.real_time_import)
            && is_price(self.imbalance_price)
    }

    fn is_listed(&self, heading: &Heading) -> bool {
        self.interconnection <= heading.interconnections
            && self.node <= heading.nodes
            && self.hour <= heading.hours
    }
}

impl Row for Reserve {
    ghost terms = { reserve_terms };

    ghost ROOM = { reserve_room };

    ghost room_is = { refl };

    const ROOM: usize = 400;

    fn is_alike(&self, other: &Reserve) -> bool {
        self.account == other.account
            && self.unit == other.unit
            && self.kind == other.kind
            && self.hour == other.hour
    }

    fn is_in_range(&self) -> bool {
        self.account >= 1
            && is_unit(self.unit)
            && is_kind(self.kind)
            && self.hour >= 1
            && is_reserve_price(self.day_ahead_price)
            && is_energy(self.day_ahead)
            && is_reserve_price(self.real_time_price)
            && is_energy(self.real_time)
    }

    fn is_listed(&self, heading: &Heading) -> bool {
        self.account <= heading.accounts && self.hour <= heading.hours
    }
}

impl Row for Failure {
    ghost terms = { failure_terms };

    ghost ROOM = { failure_room };

    ghost room_is = { refl };

    const ROOM: usize = 320;

    fn is_alike(&self, other: &Failure) -> bool {
        self.unit == other.unit && self.kind == other.kind
    }

    fn is_in_range(&self) -> bool {
        is_unit(self.unit) && is_kind(self.kind)
    }

    // A failure names neither account, node, hour nor interconnection.
    fn is_listed(&self, _heading: &Heading) -> bool {
        true
    }
}

impl Row for Fine {
    ghost terms = { fine_terms };

    ghost ROOM = { fine_room };

    ghost room_is = { refl };

    const ROOM: usize = 50;

    fn is_alike(&self, other: &Fine) -> bool {
        self.identifier == other.identifier
    }

    fn is_in_range(&self) -> bool {
        self.account >= 1 && is_fine(self.centavos)
    }

    fn is_listed(&self, heading: &Heading) -> bool {
        self.account <= heading.accounts
    }
}
