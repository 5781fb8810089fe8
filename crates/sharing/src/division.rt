// Proportions of an amount, with no product of the amount and a weight: that would not fit 64 bits.
ghost use Rattle.std.specs.Prelude.{◌≡◌, ◌*◌, ◌/◌, ◌%◌, ◌<◌, ◌≤◌, length, sum};
ghost use Rattle.sharing.specs.Limits.{most_amount, most_places, most_weight};

#[derive(Clone, Copy)]
pub struct Divided {
    pub quotient: u64,
    pub remainder: u64,
}

// Quotient and remainder of the same two numbers.
pub fn divide(number: u64, divisor: u64) -> Divided
    requires { 0 < divisor }
    ensures quotient { result.quotient ≡ number / divisor }
    ensures remainder { result.remainder ≡ number % divisor }
{
    Divided {
        quotient: number / divisor,
        remainder: number % divisor,
    }
}

// An amount over the sum of the weights, divided once for all parts.
#[derive(Clone, Copy)]
pub struct Rate {
    pub amount: u64,
    pub total: u64,
    pub each: u64,
    pub rest: u64,
    ghost some: { 0 < total },
    ghost small: { amount ≤ most_amount },
    ghost light: { total ≤ most_weight },
    ghost each_is: { each ≡ amount / total },
    ghost rest_is: { rest ≡ amount % total },
}

impl Rate {
    pub fn new(amount: u64, total: u64) -> Rate
        requires some { 0 < total }
        requires small { amount ≤ most_amount }
        requires light { total ≤ most_weight }
        ensures amount { result.amount ≡ amount }
        ensures total { result.total ≡ total }
    {
        let divided = divide(amount, total);
        Rate {
            amount,
            total,
            each: divided.quotient,
            rest: divided.remainder,
        }
    }

    // amount × weight over the sum of the weights.
    pub fn portion(&self, weight: u64) -> Divided
        requires { weight ≤ self.now.total }
        ensures floor { result.quotient ≡ self.now.amount * weight / self.now.total }
        ensures rest { result.remainder ≡ self.now.amount * weight % self.now.total }
    {
        let divided = divide(self.rest * weight, self.total);
        Divided {
            quotient: self.each * weight + divided.quotient,
            remainder: divided.remainder,
        }
    }
}

// The weights, of which there are some, and the rate at which an amount is shared over them.
#[derive(Clone, Copy)]
pub struct Proportions<'a> {
    pub weights: &'a [u64],
    pub rate: Rate,
    ghost few: { length weights.now ≤ most_places },
    ghost whole: { rate.total ≡ sum weights.now },
}

impl<'a> Proportions<'a> {
    pub fn new(amount: u64, weights: &'a [u64], total: u64) -> Proportions<'a>
        requires few { length weights.now ≤ most_places }
        requires whole { total ≡ sum weights.now }
        requires some { 0 < total }
        requires small { amount ≤ most_amount }
        requires light { total ≤ most_weight }
        ensures amount { result.rate.amount ≡ amount }
        ensures weights { result.weights.now ≡ weights.now }
    {
        Proportions {
            weights,
            rate: Rate::new(amount, total),
        }
    }
}
