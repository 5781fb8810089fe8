// Tables of records: finding, entering, and whether a table could have been entered as it stands.
ghost use Rattle.std.specs.Prelude.{◌≡◌, ◌<◌, not, length, position, is_some, IfSome};
ghost use Rattle.rows.specs.Tables.{first_place, row_refusal, sound_table};

use crate::row::Row;
use dayfile::heading::Heading;
use faults::refusal::Refusal;

// The place that `find` gives, in the word that the library has for it.
fn position_of<T: Row>(rows: &[T], row: &T) -> Option<usize>
    ensures { result ≡ position (T.terms.alike row.now) rows.now }
{
    rows.iter().position(|other| row.is_alike(other))
}

// Where the first record with the key of `row` stands.
#[tactic(auto, using(crate::proofs::Places::first_place_is))]
pub fn find<T: Row>(rows: &[T], row: &T) -> Option<usize>
    ensures value { result ≡ first_place (T.terms.alike row.now) rows.now }
    ensures within { IfSome result (λ i. i < length rows.now) }
{
    position_of(rows, row)
}

// Why `row` cannot follow `rows`, if so. An Option and no Result: callers ask why not, and nothing is done.
pub fn refusal_after<T: Row>(heading: &Heading, rows: &[T], row: &T) -> Option<Refusal>
    ensures { result ≡ row_refusal T.terms heading.now rows.now row.now }
{
    if !row.is_in_range() {
        Some(Refusal::OutOfRange)
    } else if !row.is_listed(heading) {
        Some(Refusal::AboveHeading)
    } else if find(rows, row).is_some() {
        Some(Refusal::KeyTaken)
    } else if rows.len() >= T::ROOM {
        Some(Refusal::TableFull)
    } else {
        None
    }
}

// Can `row` follow those before it?
fn can_follow<T: Row>(heading: &Heading, before: &[T], row: &T) -> bool
    ensures { result ≡ not (is_some (row_refusal T.terms heading.now before.now row.now)) }
{
    refusal_after(heading, before, row).is_none()
}

// Would an empty table have taken each of these, in this order?
pub fn are_sound<T: Row>(heading: &Heading, rows: &[T]) -> bool
    ensures { result ≡ sound_table T.terms heading.now rows.now }
{
    rows.iter()
        .enumerate()
        .all(|(i, row)| can_follow(heading, &rows[..i], row))
}
