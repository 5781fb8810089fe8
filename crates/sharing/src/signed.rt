// Sharing a signed amount.
ghost use Rattle.std.specs.Prelude.{◌≡◌, ℕ, ◌<◌, ◌≤◌, map, length, OnOk, slice_index, unsigned_abs};
ghost use Rattle.sharing.specs.Limits.{most_amount};
ghost use Rattle.sharing.specs.Shareable.{share_answer};
ghost use Rattle.sharing.specs.Signed.{signed_leaves, sumℤ, with_sign_of};

use crate::limits::MOST_PLACES;
use crate::rule::Sharing;
use faults::fault::Fault;
use faults::refusal::Refusal;

// A part with the sign of the amount.
fn with_sign(amount: i64, part: u64) -> i64
    requires { part ≤ most_amount }
    ensures { result ≡ with_sign_of amount part }
{
    let magnitude = part.cast_signed();
    if amount < 0 { -magnitude } else { magnitude }
}

// Writes each part with the sign of the amount.
fn lay_signed(amount: i64, parts: &[u64], shares: &mut [i64])
    requires places { length shares.old ≡ length parts.now }
    requires small { (k : ℕ) → k < length parts.now → slice_index parts.now k ≤ most_amount }
    ensures { shares.new ≡ map (with_sign_of amount) parts.now }
{
    // By place and not as a zip: of what is written through one a proof knows the length alone.
    for (i, share) in shares.iter_mut().enumerate() {
        *share = with_sign(amount, parts[i]);
    }
}

// Shares an amount by its magnitude under a rule; the parts take its sign and add up to it.
pub fn share_signed<R: Sharing>(
    rule: &R,
    amount: i64,
    weights: &[u64],
    shares: &mut [i64],
) -> Result<(), Fault>
    ensures answer { result ≡ share_answer (unsigned_abs amount) weights.now (length shares.old) }
    ensures after { shares.new ≡ signed_leaves (R.Sharing.parts rule.now) amount weights.now shares.old }
    ensures whole { OnOk result (sumℤ shares.new ≡ amount) }
{
    let places = shares.len();
    if places > MOST_PLACES {
        return Err(Fault::plain(Refusal::NotShareable));
    }
    // A fixed array cut to length: sharing may not allocate.
    let mut room = [0u64; MOST_PLACES];
    let magnitudes = &mut room[..places];
    rule.share(amount.unsigned_abs(), weights, magnitudes)?;
    lay_signed(amount, magnitudes, shares);
    Ok(())
}
