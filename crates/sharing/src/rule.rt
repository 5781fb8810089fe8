// What a sharing rule is.
ghost use Rattle.std.specs.Prelude.{◌≡◌, ℕ, List, length};
ghost use Rattle.sharing.specs.Fair.{Fair};
ghost use Rattle.sharing.specs.Shareable.{share_answer, share_leaves};

use faults::fault::Fault;

// A rule that shares an amount over weights. Its meaning may depend on the rule's value.
pub trait Sharing {
    // The parts of an amount over weights, in the order of the weights.
    ghost parts: { Self → ℕ → List ℕ → List ℕ };

    // Writes the parts, or refuses and writes nothing.
    fn share(&self, amount: u64, weights: &[u64], shares: &mut [u64]) -> Result<(), Fault>
        ensures answer { result ≡ share_answer amount weights.now (length shares.old) }
        ensures after { shares.new ≡ share_leaves (parts self.now) amount weights.now shares.old };

    ghost fair: { (s : Self) → Fair (parts s) };
}
