// The memory that a day works on, and whether it is the day's.
ghost use Rattle.std.specs.Prelude.{◌≡◌, true, false, MatchResult, OnOk};
ghost use Rattle.faults.specs.Places.{plain};
ghost use Rattle.faults.specs.declared.refusal.Refusal.TheVariants.{UnsoundMemory};
ghost use Rattle.book.specs.Books.{held};
ghost use Rattle.book.specs.Soundness.{sound_records};
ghost use Rattle.ledger.specs.Notes.{sound_notes, within_limit};
ghost use Rattle.day.specs.Calls.{issues_in};
ghost use Rattle.day.specs.Memory.{memory, sound_memory};

use crate::refused::Refused;
use crate::stage::State;
use crate::state::{DayIn, Numbers};
use book::book::Book;
use codes::table::Table;
use ledger::note::Note;
use ledger::sound::{are_sound, is_within};

// Are the book, the table and the ledger those that the calls of a day with these numbers, and so many issues, could
// have left?
// The three are lent apart, here and by each call: a struct of `&mut`s would ask more of who calls with shared references.
pub fn is_sound(numbers: &Numbers, issues: u8, book: &Book, table: &Table, ledger: &[Note]) -> bool
    ensures value { result ≡ sound_memory numbers.now issues (memory (held book.now) table.now ledger.now) }
    ensures records { result ≡ true → sound_records (held book.now) ≡ true }
    ensures limited { result ≡ true → within_limit table.now ≡ true }
    ensures notes { result ≡ true → sound_notes ledger.now numbers.now.notes issues ≡ true }
{
    book.is_of_day(&numbers.heading, &numbers.counts)
        && is_within(table)
        && are_sound(ledger, numbers.notes, issues)
}

impl<S: State> DayIn<S> {
    // This day, unless the book, the table and the ledger are not its own.
    pub(crate) fn checked_with(
        self,
        book: &Book,
        table: &Table,
        ledger: &[Note],
    ) -> Result<DayIn<S>, Refused<DayIn<S>>>
        ensures same { MatchResult result (λ day. day ≡ self) (λ r. r ≡ record { day = self; fault = plain UnsoundMemory }) }
        ensures test { MatchResult result (λ _. sound_memory self.numbers (issues_in S.State.MADE self.numbers) (memory (held book.now) table.now ledger.now) ≡ true) (λ _. sound_memory self.numbers (issues_in S.State.MADE self.numbers) (memory (held book.now) table.now ledger.now) ≡ false) }
        ensures records { OnOk result (sound_records (held book.now) ≡ true) }
        ensures limited { OnOk result (within_limit table.now ≡ true) }
        ensures notes { OnOk result (sound_notes ledger.now self.numbers.notes (issues_in S.State.MADE self.numbers) ≡ true) }
    {
        if is_sound(&self.numbers, self.issues(), book, table, ledger) {
            Ok(self)
        } else {
            Err(Refused::unsound(self))
        }
    }
}
