// What the rules have in common: what they refuse, and zeros where nobody has a weight.
ghost use Rattle.std.specs.Prelude.{◌≡◌, ℕ, List, length};
ghost use Rattle.sharing.specs.Fair.{Fair};
ghost use Rattle.sharing.specs.Shareable.{share_answer, share_leaves};

use crate::division::Proportions;
use crate::limits::total_weight;
use crate::rule::Sharing;
use faults::fault::Fault;

// How a rule lays out the parts where there is some weight.
pub trait Laying {
    ghost laid: { ℕ → List ℕ → List ℕ };

    fn lay(proportions: &Proportions, shares: &mut [u64])
        requires { length shares.old ≡ length proportions.now.weights.now }
        ensures { shares.new ≡ laid proportions.now.rate.amount proportions.now.weights.now };

    ghost laid_fair: { Fair laid };
}

impl<L: Laying> Sharing for L {
    ghost parts = { λ _. L.laid };

    ghost fair = { λ s. L.laid_fair };

    fn share(&self, amount: u64, weights: &[u64], shares: &mut [u64]) -> Result<(), Fault> {
        let total = total_weight(amount, weights, shares.len())?;
        if total == 0 {
            shares.fill(0);
        } else {
            L::lay(&Proportions::new(amount, weights, total), shares);
        }
        Ok(())
    }
}
