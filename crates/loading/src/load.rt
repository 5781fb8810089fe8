// A file loaded record by record.
ghost use Rattle.std.specs.Prelude.{◌≡◌, ◌+◌, ◌<◌, length, true, Ok};
ghost use Rattle.cutting.specs.Cuts.{cut_at, past};
ghost use Rattle.book.specs.Books.{answer, held, opened};
ghost use Rattle.loading.specs.Laws.{LoadIsOpenEnterClose, LoadedIsSound};
ghost use Rattle.loading.specs.Loading.{after_end, after_record, answered, at_offset, file_records, load_leaves, opening, records_ahead, records_or_none, step, turned};

use book::book::Book;
use closing::close::close;
use cutting::reader::Reader;
use decoding::decode::decode_end;
use faults::fault::Fault;
use faults::refusal::Refusal;

// Closes the book with the end record, which stands at the offset. Bytes after it are as wrong as a wrong count.
fn close_at(book: &Book, part: &[u8], offset: usize, is_last: bool) -> Result<(), Fault>
    ensures { answered result (held book.now) ≡ at_offset offset (after_end is_last (held book.now) part.now) }
{
    if !is_last {
        return Err(Fault::plain(Refusal::WrongCount).at_offset(offset));
    }
    close(book, part).map_err(|fault| fault.at_offset(offset))
}

// Takes one record, which stands at the offset. Does the load go on after it? The end record ends it.
fn take(book: &mut Book, part: &[u8], offset: usize, is_last: bool) -> Result<bool, Fault>
    ensures { turned result (offset + length part.now) (held book.new) ≡ after_record is_last offset (held book.old) part.now }
{
    if decode_end(part).is_ok() {
        close_at(book, part, offset, is_last)?;
        return Ok(false);
    }
    book.enter(part).map_err(|fault| fault.at_offset(offset))?;
    Ok(true)
}

// Takes the record at the reader's offset. Does the load go on after it?
fn take_next(book: &mut Book, reader: &mut Reader) -> Result<bool, Fault>
    ensures file { reader.new.file.now ≡ reader.old.file.now }
    ensures value { turned result reader.new.offset (held book.new) ≡ step reader.old.file.now reader.old.offset (held book.old) }
    ensures moves { result ≡ Ok true → reader.old.offset < reader.new.offset }
{
    let offset = reader.offset();
    let part = reader.next()?;
    take(book, part, offset, reader.at_end())
}

// Takes the records from the reader's offset on, up to the end record.
fn read_records(book: &mut Book, reader: &mut Reader) -> Result<(), Fault>
    ensures { answered result (held book.new) ≡ records_ahead reader.old.file.now reader.old.offset (held book.old) }
{
    while take_next(book, reader)? {}
    Ok(())
}

// Reads the records that follow the heading. After a refusal there are none.
fn read_or_clear(book: &mut Book, reader: &mut Reader) -> Result<(), Fault>
    ensures value { result ≡ answer (records_ahead reader.old.file.now reader.old.offset (held book.old)) }
    ensures after { held book.new ≡ records_or_none book.old.heading (records_ahead reader.old.file.now reader.old.offset (held book.old)) }
{
    let heading = book.heading;
    let answer = read_records(book, reader);
    if answer.is_err() {
        book.clear(heading);
    }
    answer
}

// Opens the book with the first record.
fn open_first(book: &mut Book, reader: &mut Reader) -> Result<(), Fault>
    requires { reader.old.offset ≡ 0 }
    ensures file { reader.new.file.now ≡ reader.old.file.now }
    ensures offset { reader.new.offset ≡ past 0 (cut_at reader.old.file.now 0) }
    ensures value { result ≡ answer (opening reader.old.file.now) }
    ensures after { held book.new ≡ opened (held book.old) (opening reader.old.file.now) }
{
    book.open(reader.next()?)
}

// Loads a file: opens the book with its first record, enters each record after it, and closes the book with the end record.
// A refused load leaves no record.
pub fn load(book: &mut Book, file: &[u8]) -> Result<(), Fault>
    ensures value { result ≡ answer (file_records file.now) }
    ensures after { held book.new ≡ load_leaves (held book.old) file.now }
{
    let held_before = book.heading;
    let mut reader = Reader::new(file);
    // A match and no `?`: a refusal empties the book under the heading held before.
    match open_first(book, &mut reader) {
        Ok(()) => read_or_clear(book, &mut reader),
        Err(fault) => {
            book.clear(held_before);
            Err(fault)
        }
    }
}

// What an accepted load is: the calls that it stands for, one after the other, and a sound book.
pub fn loading_stands()
    ensures calls { LoadIsOpenEnterClose }
    ensures sound { LoadedIsSound }
{}
