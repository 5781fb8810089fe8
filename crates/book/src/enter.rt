// Making a book, and entering records into it.
ghost use Rattle.std.specs.Prelude.{◌≡◌, IfOk, None};
ghost use Rattle.decoding.specs.Decoded.{decoded_heading};
ghost use Rattle.book.specs.Books.{admission, admitted, answer, entered, held, new_heading, no_records, opened, record_refusal, with_record};

use crate::book::Book;
use dayfile::heading::Heading;
use dayfile::record::{Failure, Fine, Interconnection, Position, Price, Record, Reserve};
use decoding::decode::{decode_heading, decode_record, place_of};
use faults::fault::Fault;
use faults::refusal::Refusal;
use rows::row::Row;
use rows::table::refusal_after;
use std::alloc::{AllocError, Global};

// What a new book has for a heading.
fn new_heading() -> Heading
    ensures { result ≡ new_heading }
{
    Heading {
        year: 2016,
        month: 1,
        day: 1,
        hours: 24,
        accounts: 1,
        nodes: 1,
        interconnections: 0,
    }
}

impl Book {
    // An empty book. This is the only call that asks for memory.
    pub fn new(heap: Global) -> Result<Book, AllocError>
        ensures { IfOk result (λ book. held book ≡ no_records new_heading) }
    {
        Ok(Book {
            heading: new_heading(),
            prices: Vec::with_capacity(heap, Price::ROOM)?,
            positions: Vec::with_capacity(heap, Position::ROOM)?,
            interconnections: Vec::with_capacity(heap, Interconnection::ROOM)?,
            reserves: Vec::with_capacity(heap, Reserve::ROOM)?,
            failures: Vec::with_capacity(heap, Failure::ROOM)?,
            fines: Vec::with_capacity(heap, Fine::ROOM)?,
        })
    }

    // Another heading, and no record of any kind.
    pub fn clear(&mut self, heading: Heading)
        ensures { held self.new ≡ no_records heading }
    {
        self.heading = heading;
        self.prices.clear();
        self.positions.clear();
        self.interconnections.clear();
        self.reserves.clear();
        self.failures.clear();
        self.fines.clear();
    }

    // Why the record cannot be entered, if so. An Option and no Result: callers ask why not, and nothing is done.
    pub fn record_refusal(&self, item: &Record) -> Option<Refusal>
        ensures { result ≡ record_refusal (held self.now) item.now }
    {
        let heading = &self.heading;
        match item {
            Record::Price(p) => refusal_after(heading, &self.prices, p),
            Record::Position(p) => refusal_after(heading, &self.positions, p),
            Record::Interconnection(p) => refusal_after(heading, &self.interconnections, p),
            Record::Reserve(p) => refusal_after(heading, &self.reserves, p),
            Record::Failure(p) => refusal_after(heading, &self.failures, p),
            Record::Fine(p) => refusal_after(heading, &self.fines, p),
        }
    }

    // Adds a record that is not refused at the end of its table. The room is there: nothing is allocated.
    fn add(&mut self, item: Record)
        requires { record_refusal (held self.old) item ≡ None }
        ensures { held self.new ≡ with_record (held self.old) item }
    {
        match item {
            Record::Price(p) => self.prices.push_reserved(p),
            Record::Position(p) => self.positions.push_reserved(p),
            Record::Interconnection(p) => self.interconnections.push_reserved(p),
            Record::Reserve(p) => self.reserves.push_reserved(p),
            Record::Failure(p) => self.failures.push_reserved(p),
            Record::Fine(p) => self.fines.push_reserved(p),
        }
    }

    // Enters a record, unless there is a reason against it.
    pub fn enter_record(&mut self, item: Record) -> Result<(), Fault>
        ensures value { result ≡ answer (admission (held self.old) item) }
        ensures after { held self.new ≡ entered (held self.old) (admission (held self.old) item) }
    {
        if let Some(refusal) = self.record_refusal(&item) {
            return Err(Fault::new(refusal, place_of(&item)));
        }
        self.add(item);
        Ok(())
    }

    // Begins a day with the heading that the bytes say, and no record; or leaves all as it is.
    pub fn open(&mut self, bytes: &[u8]) -> Result<(), Fault>
        ensures value { result ≡ answer (decoded_heading bytes.now) }
        ensures after { held self.new ≡ opened (held self.old) (decoded_heading bytes.now) }
    {
        let heading = decode_heading(bytes)?;
        self.clear(heading);
        Ok(())
    }

    // Enters the record that the bytes say, unless there is a reason against it.
    pub fn enter(&mut self, bytes: &[u8]) -> Result<(), Fault>
        ensures value { result ≡ answer (admitted (held self.old) bytes.now) }
        ensures after { held self.new ≡ entered (held self.old) (admitted (held self.old) bytes.now) }
    {
        self.enter_record(decode_record(bytes)?)
    }
}
