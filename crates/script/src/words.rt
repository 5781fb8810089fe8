// The lines of a script, and the words of a line.
ghost use Rattle.std.specs.Prelude.{◌≡◌, ℕ, ◌<◌, ◌≤◌, ◌↔◌, Bool, map, length, IfOk, IfSome, IsNone};
ghost use Rattle.std.specs.List.{position_or_len};
ghost use Rattle.script.specs.Words.{after_line, after_word, blank, first_line, first_word, line_words, unblanked, uncommented};

use std::alloc::{AllocError, Global};

fn is_blank(byte: u8) -> bool
    ensures { result ≡ blank byte }
{
    matches!(byte, b' ' | b'\t' | b'\r')
}

// How many bytes stand before the first that passes the test; all, where none does.
fn length_before<P: Fn(u8) -> bool>(text: &[u8], stops: P) -> usize
    ghost test: { ℕ → Bool }
    requires callable { P.IsAlwaysCallable stops }
    requires computes { (b : ℕ) (r : Bool) → P.post stops b r → r ≡ test b }
    ensures value { result ≡ position_or_len test text.now }
    ensures bound { result ≤ length text.now }
{
    text.iter().position(|b| stops(*b)).unwrap_or(text.len())
}

// The first line, without its end, and what follows it.
pub fn cut_line(text: &[u8]) -> (&[u8], &[u8])
    ensures line { result.0.now ≡ first_line text.now }
    ensures rest { result.1.now ≡ after_line text.now }
    ensures less { 0 < length text.now → length result.1.now < length text.now }
{
    let end = length_before(text, |b| b == b'\n');
    (&text[..end], text.get(end + 1..).unwrap_or(&[]))
}

// The line up to its comment.
pub fn before_comment(line: &[u8]) -> &[u8]
    ensures { result.now ≡ uncommented line.now }
{
    &line[..length_before(line, |b| b == b'#')]
}

// The text from its first word on.
fn without_blanks(text: &[u8]) -> &[u8]
    ensures value { result.now ≡ unblanked text.now }
    ensures bound { length result.now ≤ length text.now }
{
    &text[length_before(text, |b| !is_blank(b))..]
}

// The first word, and what follows it; none where there are only blanks.
pub fn cut_word(text: &[u8]) -> Option<(&[u8], &[u8])>
    ensures none { IsNone result ↔ (length (first_word text.now) ≡ 0) }
    ensures word { IfSome result (λ cut. cut.0.now ≡ first_word text.now) }
    ensures rest { IfSome result (λ cut. cut.1.now ≡ after_word text.now) }
    ensures less { IfSome result (λ cut. length cut.1.now < length text.now) }
{
    let rest = without_blanks(text);
    let length = length_before(rest, is_blank);
    if length == 0 {
        None
    } else {
        Some(rest.split_at(length))
    }
}

// The words of a line, in order.
pub fn words_of<'a>(heap: Global, line: &'a [u8]) -> Result<Vec<&'a [u8]>, AllocError>
    ensures { IfOk result (λ v. map (λ word. word.now) v.items ≡ line_words line.now) }
{
    let mut words = Vec::new(heap);
    let mut rest = before_comment(line);
    while let Some((word, after)) = cut_word(rest) {
        words.push(word)?;
        rest = after;
    }
    Ok(words)
}
