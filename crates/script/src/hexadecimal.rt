// Bytes in hexadecimal digits. Read by hand: the kit's crate hex decodes into memory that is there before a digit is looked at,
// so a word that is none would ask for room; with a test of the digits before it, a word takes up to twice as long.
ghost use Rattle.std.specs.Prelude.{◌≡◌, ◌+◌, ◌*◌, ◌<◌, true, length, IfOk, vec_items};
ghost use Rattle.std.specs.Option.{option_map};
ghost use Rattle.script.specs.Digits.{hex_byte, hex_bytes, hex_word, in_digits, is_hex};

use crate::digits::{are_digits, digit_value};
use std::alloc::{AllocError, Global};

// The byte at an index, of two digits.
fn byte_at(digits: &[u8], index: usize) -> u8
    requires right { in_digits 16 digits.now ≡ true }
    requires within { 2 * index + 1 < length digits.now }
    ensures { result ≡ hex_byte digits.now index }
{
    digit_value(digits[2 * index]) * 16 + digit_value(digits[2 * index + 1])
}

// The bytes that digits stand for, two for each.
fn decoded(heap: Global, digits: &[u8]) -> Result<Vec<u8>, AllocError>
    requires { in_digits 16 digits.now ≡ true }
    ensures { IfOk result (λ v. v.items ≡ hex_bytes digits.now) }
{
    let count = digits.len() / 2;
    let mut bytes = Vec::with_capacity(heap, count)?;
    for index in 0..count {
        bytes.push_reserved(byte_at(digits, index));
    }
    Ok(bytes)
}

// Is the word one of digits for at least one byte?
fn is_hex(word: &[u8]) -> bool
    ensures { result ≡ is_hex word.now }
{
    !word.is_empty() && word.len() % 2 == 0 && are_digits(word, 16)
}

// The bytes that a word stands for: an even number of digits, or a hyphen for no bytes; none where it is neither.
pub fn bytes_of(heap: Global, word: &[u8]) -> Result<Option<Vec<u8>>, AllocError>
    ensures { IfOk result (λ o. option_map vec_items o ≡ hex_word word.now) }
{
    if word == b"-".as_slice() {
        return Ok(Some(Vec::new(heap)));
    }
    if !is_hex(word) {
        return Ok(None);
    }
    Ok(Some(decoded(heap, word)?))
}
