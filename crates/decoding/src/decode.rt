// From the bytes of one record to what they say.
ghost use Rattle.std.specs.Prelude.{◌≡◌, length, IfOk};
ghost use Rattle.dayfile.specs.Marks.{mark_length};
ghost use Rattle.decoding.specs.Decoded.{decoded_end, decoded_heading, decoded_record, place_of, whole_mark};

use crate::fields;
use dayfile::heading::Heading;
use dayfile::mark::Mark;
use dayfile::record::Record;
use faults::fault::{Fault, Place};
use faults::refusal::Refusal;

// The mark of a record that is as long as its mark says.
fn mark_of(bytes: &[u8]) -> Result<Mark, Fault>
    ensures value { result ≡ whole_mark bytes.now }
    ensures whole { IfOk result (λ m. length bytes.now ≡ mark_length m) }
{
    let mark = Mark::at_front(bytes).ok_or(Fault::plain(Refusal::UnknownMark))?;
    if bytes.len() != mark.length() {
        return Err(Fault::plain(Refusal::WrongLength));
    }
    Ok(mark)
}

// The heading of a day, as it opens its file.
pub fn decode_heading(bytes: &[u8]) -> Result<Heading, Fault>
    ensures { result ≡ decoded_heading bytes.now }
{
    match mark_of(bytes)? {
        Mark::Day => fields::heading(bytes).ok_or(Fault::plain(Refusal::OutOfRange)),
        _ => Err(Fault::plain(Refusal::UnexpectedMark)),
    }
}

// A record of one of the six kinds that a book takes. Its fields may still be out of range.
pub fn decode_record(bytes: &[u8]) -> Result<Record, Fault>
    ensures { result ≡ decoded_record bytes.now }
{
    match mark_of(bytes)? {
        Mark::Price => Ok(Record::Price(fields::price(bytes))),
        Mark::Position => fields::position(bytes).map(Record::Position),
        Mark::Interconnection => Ok(Record::Interconnection(fields::interconnection(bytes))),
        Mark::Reserve => Ok(Record::Reserve(fields::reserve(bytes))),
        Mark::Failure => Ok(Record::Failure(fields::failure(bytes))),
        Mark::Fine => Ok(Record::Fine(fields::fine(bytes))),
        Mark::Day | Mark::End => Err(Fault::plain(Refusal::UnexpectedMark)),
    }
}

// The count of records before the end record.
pub fn decode_end(bytes: &[u8]) -> Result<u16, Fault>
    ensures { result ≡ decoded_end bytes.now }
{
    match mark_of(bytes)? {
        Mark::End => Ok(fields::count(bytes)),
        _ => Err(Fault::plain(Refusal::UnexpectedMark)),
    }
}

// The account, node and hour that a record names; 0 for those that its kind has none of.
pub fn place_of(row: &Record) -> Place
    ensures { result ≡ place_of row.now }
{
    match row {
        Record::Price(price) => Place::new(0, price.node, price.hour),
        Record::Position(position) => Place::new(position.account, position.node, position.hour),
        Record::Interconnection(exchange) => Place::new(0, exchange.node, exchange.hour),
        Record::Reserve(reserve) => Place::new(reserve.account, 0, reserve.hour),
        Record::Failure(_) => Place::none(),
        Record::Fine(fine) => Place::new(fine.account, 0, 0),
    }
}
