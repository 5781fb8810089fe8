// The rules by their numbers.
ghost use Rattle.std.specs.Prelude.{◌≡◌};
ghost use Rattle.std.specs.Option.{ok_or};
ghost use Rattle.sharing.specs.Choice.{rule_number, rule_of, rule_parts};
ghost use Rattle.sharing.specs.declared.choice.Rule.TheVariants.{LargestRemainder, Running};
ghost use Rattle.sharing.specs.LargestFair.{largest_remainder_fair};
ghost use Rattle.sharing.specs.RunningFair.{running_fair};

use crate::largest_remainder::LargestRemainder;
use crate::rule::Sharing;
use crate::running::Running;
use faults::fault::Fault;

// A rule that is chosen when the program runs, with its number.
#[derive(Clone, Copy, Debug, PartialEq, Eq)]
pub enum Rule {
    Running = 1,
    LargestRemainder = 2,
}

// A number that no rule has. An error of its own for each `TryFrom`, as in Rust.
#[derive(Clone, Copy, Debug, PartialEq, Eq)]
pub struct UnknownRule(pub u8);

impl From<Rule> for u8 {
    ghost from_gives = { λ rule number. number ≡ rule_number rule };

    fn from(rule: Rule) -> u8 {
        rule as u8
    }
}

impl TryFrom<u8> for Rule {
    type Error = UnknownRule;

    ghost try_from_gives = { λ number rule. rule ≡ ok_or (rule_of number) (record { 0 = number }) };

    fn try_from(number: u8) -> Result<Rule, UnknownRule> {
        match number {
            1 => Ok(Rule::Running),
            2 => Ok(Rule::LargestRemainder),
            _ => Err(UnknownRule(number)),
        }
    }
}

impl Sharing for Rule {
    ghost parts = { rule_parts };

    ghost fair = { elim [ Running ↦ running_fair | LargestRemainder ↦ largest_remainder_fair ] };

    fn share(&self, amount: u64, weights: &[u64], shares: &mut [u64]) -> Result<(), Fault> {
        // The rules are closed, and no function may hand out a `dyn`.
        match self {
            Rule::Running => Running.share(amount, weights, shares),
            Rule::LargestRemainder => LargestRemainder.share(amount, weights, shares),
        }
    }
}
