// What a rule may be asked to share.
ghost use Rattle.std.specs.Prelude.{◌≡◌, ◌≤◌, ◌&&◌, leb, length, if◌then◌else◌, Some, None, sum, ◌==◌, nat_le};
ghost use Rattle.sharing.specs.Limits.{most_amount, most_places, most_weight};
ghost use Rattle.sharing.specs.Shareable.{total_answer};

use faults::fault::Fault;
use faults::refusal::Refusal;

// The largest amount, in mils.
pub const MOST_AMOUNT: u64 = 100_000_000_000_000_000;
// The largest sum of the weights.
pub const MOST_WEIGHT: u64 = 2_000_000_000;
// The largest number of weights.
pub const MOST_PLACES: usize = 32;

// Are there as many places as weights, at least one and not too many, and is the amount not too large?
fn is_within(amount: u64, weights: usize, places: usize) -> bool
    ensures { result ≡ (places == weights && (nat_le 1 weights && (nat_le weights most_places && nat_le amount most_amount))) }
{
    places == weights && (1..=MOST_PLACES).contains(&weights) && amount <= MOST_AMOUNT
}

// The sum of the weights, where it is not too large.
fn limited_sum(weights: &[u64]) -> Option<u64>
    ensures { result ≡ (if leb (sum weights.now) most_weight then Some (sum weights.now) else None) }
{
    let total = weights
        .iter()
        .try_fold(0u64, |total, weight| total.checked_add(*weight))?;
    (total <= MOST_WEIGHT).then_some(total)
}

// The sum of the weights, or the refusal of every rule: the lists differ in length, there is no weight or there are too
// many, a limit is passed, or there is an amount and nobody has a weight.
pub fn total_weight(amount: u64, weights: &[u64], places: usize) -> Result<u64, Fault>
    ensures { result ≡ total_answer amount weights.now places }
{
    // First what needs no pass over the weights: a list that is too long is refused without reading it.
    if !is_within(amount, weights.len(), places) {
        return Err(Fault::plain(Refusal::NotShareable));
    }
    limited_sum(weights)
        .filter(|total| *total > 0 || amount == 0)
        .ok_or(Fault::plain(Refusal::NotShareable))
}
