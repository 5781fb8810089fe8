// The end of a day's records.
ghost use Rattle.std.specs.Prelude.{◌≡◌};
ghost use Rattle.book.specs.Books.{held};
ghost use Rattle.closing.specs.Prices.{closing, ended};

use crate::prices::first_unpriced;
use book::book::Book;
use decoding::decode::decode_end;
use faults::fault::Fault;
use faults::refusal::Refusal;

// Are there as many records as the end record counts, and has each the price that it needs?
fn ends_with(book: &Book, count: u16) -> Result<(), Fault>
    ensures { result ≡ ended (held book.now) count }
{
    if u128::from(count) != 1 + book.record_count() {
        return Err(Fault::plain(Refusal::WrongCount));
    }
    // None is the good answer here, so no `ok_or`.
    match first_unpriced(book) {
        Some(place) => Err(Fault::new(Refusal::NoPrice, place)),
        None => Ok(()),
    }
}

// Takes the end record, unless there is a reason against it. A book is not changed by its end.
pub fn close(book: &Book, bytes: &[u8]) -> Result<(), Fault>
    ensures { result ≡ closing (held book.now) bytes.now }
{
    ends_with(book, decode_end(bytes)?)
}
