// The running rule.
ghost use Rattle.sharing.specs.Running.{running};
ghost use Rattle.sharing.specs.RunningFair.{running_fair};

use crate::division::Proportions;
use crate::laying::Laying;

// A part is the floor of amount × C / W, less the same at the place before: C is the sum of the weights up to and
// including this one, and W the sum of all.
#[derive(Clone, Copy)]
pub struct Running;

impl Laying for Running {
    ghost laid = { running };

    ghost laid_fair = { running_fair };

    // Writes for each place what is due up to it, less what was due before.
    fn lay(proportions: &Proportions, shares: &mut [u64]) {
        let Proportions { weights, rate } = *proportions;
        let mut reached = 0;
        let mut before = 0;
        // By place and not as a zip: of what is written through one a proof knows the length alone.
        for (i, weight) in weights.iter().enumerate() {
            reached += *weight;
            let after = rate.portion(reached).quotient;
            shares[i] = after - before;
            before = after;
        }
    }
}
