// Whether an amount is received or owed.
ghost use Rattle.std.specs.Prelude.{◌≡◌};
ghost use Rattle.statement.specs.Sides.{side_and_magnitude, side_letter};

#[derive(Clone, Copy, Debug, PartialEq, Eq)]
pub enum Side {
    // The party receives the amount.
    Payment,
    // The party owes it.
    Charge,
}

impl Side {
    // The letter that stands for the side in a statement. A method: a `u8::from` would not say that it is a letter.
    pub fn letter(self) -> u8
        ensures { result ≡ side_letter self }
    {
        match self {
            Side::Payment => b'P',
            Side::Charge => b'C',
        }
    }
}

// An amount as its side and its magnitude. 0 is a payment.
pub fn side_and_magnitude(amount: i64) -> (Side, u64)
    ensures { result ≡ side_and_magnitude amount }
{
    if amount >= 0 {
        (Side::Payment, amount.unsigned_abs())
    } else {
        (Side::Charge, amount.unsigned_abs())
    }
}
