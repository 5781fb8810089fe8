// The largest-remainder rule.
ghost use Rattle.std.specs.Prelude.{◌≡◌, ℕ, ◌+◌, ◌<◌, ◌≤◌, ◌&&◌, ◌||◌, ltb, map, length, if◌then◌else◌, ◌==◌, nat_lt, slice_index};
ghost use Rattle.std.specs.List.{range_with_len};
ghost use Rattle.sharing.specs.LargestRemainder.{floors, largest_remainder, missing, rank, remainders};
ghost use Rattle.sharing.specs.Limits.{most_amount};
ghost use Rattle.sharing.specs.LargestFair.{largest_remainder_fair};

use crate::division::Proportions;
use crate::laying::Laying;
use crate::limits::MOST_PLACES;
use std::cmp::Reverse;

// Writes the floors and the remainders, and answers how many mils the floors leave over.
fn lay_floors(proportions: &Proportions, shares: &mut [u64], rests: &mut [u64]) -> u64
    requires places { length shares.old ≡ length proportions.now.weights.now }
    requires room { length rests.old ≡ length proportions.now.weights.now }
    ensures floors { shares.new ≡ floors proportions.now.rate.amount proportions.now.weights.now }
    ensures rests { rests.new ≡ remainders proportions.now.rate.amount proportions.now.weights.now }
    ensures lacks { result ≡ missing proportions.now.rate.amount proportions.now.weights.now }
{
    let Proportions { weights, rate } = *proportions;
    let mut lacking = rate.amount;
    // By place and not as a zip: of what is written through one a proof knows the length alone.
    for (i, weight) in weights.iter().enumerate() {
        let portion = rate.portion(*weight);
        shares[i] = portion.quotient;
        rests[i] = portion.remainder;
        lacking -= portion.quotient;
    }
    lacking
}

// Does a remainder at place j come before another at place i?
fn comes_before(rest: u64, j: usize, other: u64, i: usize) -> bool
    ensures { result ≡ (nat_lt other rest || (other == rest && nat_lt j i)) }
{
    (Reverse(rest), j) < (Reverse(other), i)
}

// How many places come before place i.
fn rank_of(rests: &[u64], i: usize) -> usize
    requires { i < length rests.now }
    ensures { result ≡ rank rests.now i }
{
    let own = rests[i];
    let mut n = 0;
    // Tried as a chain of enumerate, filter and count: it proves, and the rule takes more than twice as long.
    for (j, rest) in rests.iter().enumerate() {
        if comes_before(*rest, j, own, i) {
            n += 1;
        }
    }
    n
}

// Adds one mil at each of the first places, as many as mils are lacking.
fn give_missing(lacking: u64, rests: &[u64], shares: &mut [u64])
    requires places { length shares.old ≡ length rests.now }
    requires small { (k : ℕ) → k < length shares.old → slice_index shares.old k ≤ most_amount }
    ensures { shares.new ≡ map (λ i. slice_index shares.old i + (if ltb (rank rests.now i) lacking then 1 else 0)) (range_with_len 0 (length rests.now)) }
{
    for (i, share) in shares.iter_mut().enumerate() {
        if (rank_of(rests, i) as u64) < lacking {
            *share += 1;
        }
    }
}

// Each part is the floor of its proportion, and the missing mils go one each to the largest remainders, the earlier
// place first on a tie.
#[derive(Clone, Copy)]
pub struct LargestRemainder;

impl Laying for LargestRemainder {
    ghost laid = { largest_remainder };

    ghost laid_fair = { largest_remainder_fair };

    // The floors, and the missing mils to the places with the largest remainders.
    fn lay(proportions: &Proportions, shares: &mut [u64]) {
        // Beside the caller's list, a fixed array cut to its length: sharing may not allocate.
        let mut room = [0u64; MOST_PLACES];
        let rests = &mut room[..shares.len()];
        let lacking = lay_floors(proportions, shares, rests);
        give_missing(lacking, rests, shares);
    }
}
