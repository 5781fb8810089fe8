// One loop for every sum over records.
ghost use Rattle.std.specs.Prelude.{◌≡◌, ◌≤◌, length, ℤ, unsigned_abs};
ghost use Rattle.std.specs.List.{AllByRecursion};
ghost use Rattle.codes.specs.Sums.{sum_over};

// What a record adds to a sum. A trait, not a closure: its ghost members say once what a closure's callers would each say.
pub trait Term<X> {
    ghost adds: { Self → X → ℤ };

    // What must be known of a record.
    ghost valid: { Self → X → Type 0 };

    fn term(&self, x: &X) -> i64
        requires { valid self.now x.now }
        ensures value { result ≡ adds self.now x.now }
        ensures bound { unsigned_abs result ≤ 1000000000000000 };
}

// A loop over a signed total, since `sum` of signed numbers proves no bound.
pub fn sum_of<X, T: Term<X>>(t: &T, xs: &[X]) -> i64
    requires few { length xs.now ≤ 1000 }
    requires valid { AllByRecursion (T.Term.valid t.now) xs.now }
    ensures { result ≡ sum_over (T.Term.adds t.now) xs.now }
{
    let mut total: i64 = 0;
    for x in xs {
        total += t.term(x);
    }
    total
}
