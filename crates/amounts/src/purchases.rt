// Physical purchases of the accounts in an hour.
ghost use Rattle.std.specs.Prelude.{◌≡◌, ◌≤◌, length};
ghost use Rattle.std.specs.List.{AllByRecursion};
ghost use Rattle.valuation.specs.Valid.{ValidPosition};
ghost use Rattle.amounts.specs.Buying.{bought, bought_sums};

use dayfile::record::Position;
use valuation::terms::is_bought;

// The energy bought by a position, if it is of the hour.
fn bought_in(hour: u8, x: &Position) -> u64
    requires { ValidPosition x.now }
    ensures value { result ≡ bought hour x.now }
    ensures bound { result ≤ 2000000 }
{
    if x.hour == hour && is_bought(x.class) {
        u64::from(x.real_time)
    } else {
        0
    }
}

// Writes the physical purchases of each account, account 1 first, in one pass over the positions. u64 here, i64 where
// penalties are added up: a weight is never negative.
pub fn put_purchases(positions: &[Position], hour: u8, weights: &mut [u64])
    requires few { length positions.now ≤ 1000 }
    requires valid { AllByRecursion ValidPosition positions.now }
    requires listed { AllByRecursion (λ x. (1 ≤ x.account) × (x.account ≤ length weights.old)) positions.now }
    ensures { weights.new ≡ bought_sums hour (length weights.old) positions.now }
{
    weights.fill(0);
    for x in positions {
        weights[usize::from(x.account) - 1] += bought_in(hour, x);
    }
}
