// Whether a book could have been entered as it stands.
ghost use Rattle.std.specs.Prelude.{◌≡◌};
ghost use Rattle.book.specs.Books.{counts_of, held, record_count};
ghost use Rattle.book.specs.Soundness.{DayTellsHeadingAndCounts, EnteringKeepsSound, OpenedIsSound, SoundIsOfItsDay, SoundWithRecord, records_of_day, sound_records};

use crate::book::Book;
use crate::counts::Counts;
use dayfile::heading::Heading;
use rows::table::are_sound;

impl Book {
    // How many records of each kind there are.
    pub fn counts(&self) -> Counts
        ensures { result ≡ counts_of (held self.now) }
    {
        Counts {
            prices: self.prices.len(),
            positions: self.positions.len(),
            interconnections: self.interconnections.len(),
            reserves: self.reserves.len(),
            failures: self.failures.len(),
            fines: self.fines.len(),
        }
    }

    // How many records of all kinds there are: a number wide enough for any book.
    pub fn record_count(&self) -> u128
        ensures { result ≡ record_count (held self.now) }
    {
        let counts = self.counts();
        counts.prices as u128
            + counts.positions as u128
            + counts.interconnections as u128
            + counts.reserves as u128
            + counts.failures as u128
            + counts.fines as u128
    }

    // Could these records have been entered, kind by kind, in this order?
    pub fn is_sound(&self) -> bool
        ensures { result ≡ sound_records (held self.now) }
    {
        are_sound(&self.heading, &self.prices)
            && are_sound(&self.heading, &self.positions)
            && are_sound(&self.heading, &self.interconnections)
            && are_sound(&self.heading, &self.reserves)
            && are_sound(&self.heading, &self.failures)
            && are_sound(&self.heading, &self.fines)
    }

    // Is this a sound book with this heading and these counts?
    pub fn is_of_day(&self, heading: &Heading, counts: &Counts) -> bool
        ensures { result ≡ records_of_day heading.now counts.now (held self.now) }
    {
        *heading == self.heading && *counts == self.counts() && self.is_sound()
    }
}

// What keeps a book sound.
pub fn soundness_stands()
    ensures opened { OpenedIsSound }
    ensures entered { EnteringKeepsSound }
    ensures exactly { SoundWithRecord }
    ensures own { SoundIsOfItsDay }
    ensures told { DayTellsHeadingAndCounts }
{}
