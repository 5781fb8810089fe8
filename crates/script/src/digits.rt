// Digits in any base up to 36.
ghost use Rattle.std.specs.Prelude.{◌≡◌, ◌≤◌};
ghost use Rattle.std.specs.Char.{digit_value};
ghost use Rattle.script.specs.Digits.{in_digits};

// What a digit stands for; 36 where it is none, which is no digit of any base. Public for any base: callers may read other
// digits than decimal ones.
pub fn digit_value(byte: u8) -> u8
    ensures value { result ≡ digit_value byte }
    ensures bound { result ≤ 36 }
{
    match byte {
        b'0'..=b'9' => byte - b'0',
        b'A'..=b'Z' => byte - b'A' + 10,
        b'a'..=b'z' => byte - b'a' + 10,
        _ => 36,
    }
}

// Is every byte of the word a digit of the base?
pub fn are_digits(word: &[u8], base: u8) -> bool
    ensures { result ≡ in_digits base word.now }
{
    // Tried as a chain with `all`: it proves, and takes twice as long.
    for byte in word {
        if digit_value(*byte) >= base {
            return false;
        }
    }
    true
}
