// Penalties for reserve that failed the minimum standard.
ghost use Rattle.std.specs.Prelude.{◌≡◌, ℕ, ◌+◌, ◌<◌, ◌≤◌, length, ℤ, pos, ◌+ℤ◌, slice_index_or, unsigned_abs};
ghost use Rattle.std.specs.List.{AllByRecursion};
ghost use Rattle.codes.specs.Sums.{sum_over};
ghost use Rattle.valuation.specs.Valid.{ValidReserve};
ghost use Rattle.charges.specs.Items.{at_least_zero, failed_among, failing, penalty_among};

use dayfile::record::{Failure, Reserve};
use valuation::terms::failed_term;

// What a reserve adds to the sum of a failure.
fn failing_term(failure: Failure, x: &Reserve) -> i64
    requires { ValidReserve x.now }
    ensures value { result ≡ failing failure x.now }
    ensures bound { unsigned_abs result ≤ 40000000000000 }
{
    if x.unit == failure.unit && x.kind == failure.kind {
        failed_term(x)
    } else {
        0
    }
}

// Writes the day's sum of each account for a unit and kind that failed, in one pass over the reserves.
fn put_failed(reserves: &[Reserve], failure: Failure, sums: &mut [i64])
    requires few { length reserves.now ≤ 400 }
    requires valid { AllByRecursion ValidReserve reserves.now }
    requires listed { AllByRecursion (λ x. (1 ≤ x.account) × (x.account ≤ length sums.old)) reserves.now }
    ensures value { (k : ℕ) → k < length sums.new → slice_index_or sums.new k (pos 0) ≡ failed_among reserves.now failure (k + 1) }
    ensures bound { (k : ℕ) → k < length sums.new → unsigned_abs (slice_index_or sums.new k (pos 0)) ≤ 16000000000000000 }
{
    sums.fill(0);
    for x in reserves {
        sums[usize::from(x.account) - 1] += failing_term(failure, x);
    }
}

// The larger of 0 and v.
fn at_least_zero(v: i64) -> i64
    ensures value { result ≡ at_least_zero v }
    ensures bound { unsigned_abs result ≤ unsigned_abs v }
{
    v.max(0)
}

// Adds the larger of 0 and each sum. By index, since nothing is proved of what is written through a zip of `iter_mut`.
fn add_penalties(sums: &[i64], penalties: &mut [i64])
    requires long { length sums.now ≡ length penalties.old }
    requires small { (k : ℕ) → k < length sums.now → unsigned_abs (slice_index_or sums.now k (pos 0)) ≤ 16000000000000000 }
    requires room { (k : ℕ) → k < length penalties.old → unsigned_abs (slice_index_or penalties.old k (pos 0)) ≤ 6000000000000000000 }
    ensures { (k : ℕ) → k < length penalties.new → slice_index_or penalties.new k (pos 0) ≡ slice_index_or penalties.old k (pos 0) +ℤ at_least_zero (slice_index_or sums.now k (pos 0)) }
{
    for (i, sum) in sums.iter().enumerate() {
        penalties[i] += at_least_zero(*sum);
    }
}

// Writes the penalties of each account, account 1 first. The sums are lent by the caller: nothing may be allocated.
pub fn put_penalties(
    reserves: &[Reserve],
    failures: &[Failure],
    sums: &mut [i64],
    penalties: &mut [i64],
)
    requires few { length reserves.now ≤ 400 }
    requires failed { length failures.now ≤ 320 }
    requires valid { AllByRecursion ValidReserve reserves.now }
    requires listed { AllByRecursion (λ x. (1 ≤ x.account) × (x.account ≤ length sums.old)) reserves.now }
    requires long { length sums.old ≡ length penalties.old }
    ensures { (k : ℕ) → k < length penalties.new → slice_index_or penalties.new k (pos 0) ≡ sum_over (penalty_among reserves.now (k + 1)) failures.now }
{
    penalties.fill(0);
    for failure in failures {
        put_failed(reserves, *failure, sums);
        add_penalties(sums, penalties);
    }
}
