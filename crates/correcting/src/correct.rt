// Finding a position, and putting another reading in the place of the one it has.
ghost use Rattle.std.specs.Prelude.{◌≡◌, ◌<◌, length, is_some, IfSome};
ghost use Rattle.rows.specs.Tables.{first_place};
ghost use Rattle.book.specs.Books.{answer, held};
ghost use Rattle.correcting.specs.Corrections.{CorrectingKeepsSound};
ghost use Rattle.correcting.specs.Readings.{corrected, correction, correction_refusal, is_position_of, read_position, reading_in_range, reading_listed, reading_place, reading_refusal, reread_at, with_reading};

use crate::reading::Reading;
use book::book::Book;
use dayfile::heading::Heading;
use dayfile::record::{Class, Position};
use faults::fault::{Fault, Place};
use faults::refusal::Refusal;
use rows::kinds::is_energy;

fn is_position_of(p: &Position, account: u8, node: u8, hour: u8, class: Class) -> bool
    ensures { result ≡ is_position_of account node hour class p.now }
{
    account == p.account && node == p.node && hour == p.hour && class == p.class
}

// Where the account's position of the class at the node in the hour stands.
pub fn find_position(
    positions: &[Position],
    account: u8,
    node: u8,
    hour: u8,
    class: Class,
) -> Option<usize>
    ensures value { result ≡ first_place (is_position_of account node hour class) positions.now }
    ensures within { IfSome result (λ i. i < length positions.now) }
{
    positions
        .iter()
        .position(|p| is_position_of(p, account, node, hour, class))
}

// Where the position stands that the reading is of; none where no class has the reading's number.
fn find_read(positions: &[Position], reading: Reading) -> Option<usize>
    ensures value { result ≡ read_position positions.now reading }
    ensures within { IfSome result (λ i. i < length positions.now) }
{
    let class = Class::try_from(reading.class).ok()?;
    find_position(
        positions,
        reading.account,
        reading.node,
        reading.hour,
        class,
    )
}

// Puts the reading into its position, if there is one, and says whether there was: a flag, as nothing else is to be told. Every
// other position stays as it is.
pub fn replace_reading(positions: &mut [Position], reading: Reading) -> bool
    ensures value { result ≡ is_some (read_position positions.old reading) }
    ensures after { positions.new ≡ reread_at positions.old (read_position positions.old reading) reading.real_time }
{
    let Some(i) = find_read(positions, reading) else {
        return false;
    };
    positions[i].real_time = reading.real_time;
    true
}

impl Reading {
    fn place(self) -> Place
        ensures { result ≡ reading_place self }
    {
        Place::new(self.account, self.node, self.hour)
    }

    fn is_in_range(self) -> bool
        ensures { result ≡ reading_in_range self }
    {
        self.account >= 1
            && self.node >= 1
            && self.hour >= 1
            && Class::try_from(self.class).is_ok()
            && is_energy(self.real_time)
    }

    fn is_listed(self, heading: &Heading) -> bool
        ensures { result ≡ reading_listed heading.now self }
    {
        self.account <= heading.accounts && self.node <= heading.nodes && self.hour <= heading.hours
    }

    // What the heading alone has against the reading. An Option and no Result: callers ask why not, and nothing is done.
    pub fn refusal_under(self, heading: &Heading) -> Option<Refusal>
        ensures { result ≡ reading_refusal heading.now self }
    {
        if !self.is_in_range() {
            Some(Refusal::OutOfRange)
        } else if !self.is_listed(heading) {
            Some(Refusal::AboveHeading)
        } else {
            None
        }
    }
}

// Why the reading cannot be put in the place of the one held, if so.
pub fn reading_refusal(book: &Book, reading: Reading) -> Option<Refusal>
    ensures { result ≡ correction_refusal (held book.now) reading }
{
    reading
        .refusal_under(&book.heading)
        .or_else(|| match find_read(&book.positions, reading) {
            Some(_) => None,
            None => Some(Refusal::NoPosition),
        })
}

// Puts the reading into its position, if there is one.
fn put_reading(book: &mut Book, reading: Reading)
    ensures { held book.new ≡ with_reading (held book.old) reading }
{
    let _ = replace_reading(book.positions.as_mut_slice(), reading);
}

// Puts the reading in the place of the one held, unless there is a reason against it.
pub fn correct(book: &mut Book, reading: Reading) -> Result<(), Fault>
    ensures value { result ≡ answer (correction (held book.old) reading) }
    ensures after { held book.new ≡ corrected (held book.old) (correction (held book.old) reading) }
{
    if let Some(refusal) = reading_refusal(book, reading) {
        return Err(Fault::new(refusal, reading.place()));
    }
    put_reading(book, reading);
    Ok(())
}

// What a correction keeps.
pub fn corrections_stand()
    ensures corrected { CorrectingKeepsSound }
{}
