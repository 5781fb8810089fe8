// Numbers in decimal digits.
ghost use Rattle.std.specs.Prelude.{◌≡◌, ◌+◌, ◌*◌, ◌&&◌, cond, Some, None, nat_le, nat_lt};
ghost use Rattle.std.specs.Char.{digit_value};
ghost use Rattle.std.specs.Str.Parse.{digits_value};
ghost use Rattle.script.specs.Digits.{decimal_number, in_digits};

use crate::digits::digit_value;

// The number with one decimal digit more, if the byte is one and 64 bits hold the number.
fn grown(number: u64, byte: u8) -> Option<u64>
    ensures { result ≡ cond (nat_lt (digit_value byte) 10 && nat_le (number * 10 + digit_value byte) 18446744073709551615) (Some (number * 10 + digit_value byte)) None }
{
    let digit = digit_value(byte);
    if digit >= 10 {
        return None;
    }
    number.checked_mul(10)?.checked_add(u64::from(digit))
}

// The number that decimal digits stand for, if 64 bits hold it. Tried by the library's `parse`: it proves, and takes twice as
// long, since it reads a `str` and so each byte twice.
fn value_of(word: &[u8]) -> Option<u64>
    ensures { result ≡ cond (in_digits 10 word.now && nat_le (digits_value 10 word.now) 18446744073709551615) (Some (digits_value 10 word.now)) None }
{
    let mut number: u64 = 0;
    for byte in word {
        number = grown(number, *byte)?;
    }
    Some(number)
}

// The number that a word of digits stands for, if it is no larger than the limit. Zeros may stand before it.
pub fn number(word: &[u8], limit: u64) -> Option<u64>
    ensures { result ≡ decimal_number limit word.now }
{
    if word.is_empty() {
        return None;
    }
    let value = value_of(word)?;
    (value <= limit).then_some(value)
}

// A number of one byte.
pub fn byte(word: &[u8]) -> Option<u8>
    ensures { result ≡ decimal_number 255 word.now }
{
    u8::try_from(number(word, 255)?).ok()
}
