// The memory that a day's records are kept in.
ghost use Rattle.std.specs.Prelude.{◌≤◌, vec_capacity};
ghost use Rattle.rows.specs.Kinds.{failure_room, fine_room, interconnection_room, position_room, price_room, reserve_room};

use dayfile::heading::Heading;
use dayfile::record::{Failure, Fine, Interconnection, Position, Price, Reserve};

// Whoever holds a book may write what they like into it. What a book always has is room for all records that may be
// entered, so that no call but the one that makes a book can fail for want of memory.
// Six vectors, and no table of its own type: whoever holds a book reads and writes them as any Vec.
#[derive(Drop)]
pub struct Book {
    pub heading: Heading,
    pub prices: Vec<Price>,
    pub positions: Vec<Position>,
    pub interconnections: Vec<Interconnection>,
    pub reserves: Vec<Reserve>,
    pub failures: Vec<Failure>,
    pub fines: Vec<Fine>,
    ghost prices_fit: { price_room ≤ vec_capacity prices },
    ghost positions_fit: { position_room ≤ vec_capacity positions },
    ghost interconnections_fit: { interconnection_room ≤ vec_capacity interconnections },
    ghost reserves_fit: { reserve_room ≤ vec_capacity reserves },
    ghost failures_fit: { failure_room ≤ vec_capacity failures },
    ghost fines_fit: { fine_room ≤ vec_capacity fines },
}
