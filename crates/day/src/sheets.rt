// The call that fills a second table with the sheet of an hour.
ghost use Rattle.std.specs.Prelude.{◌≡◌, ℕ, true, Some, None, MatchResult};
ghost use Rattle.book.specs.Books.{held};
ghost use Rattle.book.specs.Soundness.{sound_records};
ghost use Rattle.settlement.specs.Days.{sheet_refusal};
ghost use Rattle.settlement.specs.Sheets.{sheet as sheet_of};
ghost use Rattle.day.specs.Calls.{issues_in, sheet_gives};
ghost use Rattle.day.specs.Memory.{memory};
ghost use Rattle.day.specs.Tables.{filled_with};
ghost use Rattle.day.specs.declared.state.Numbers.{Numbers};

use crate::memory::is_sound;
use crate::refused::Refused;
use crate::stage::HasTable;
use crate::state::{DayIn, Numbers};
use book::book::Book;
use codes::table::Table;
use faults::fault::Fault;
use ledger::note::Note;
use settlement::sheet::fill_sheet;
use sharing::rule::Sharing;

// A day that has a table: settled or issued. A trait beside `HasTable`, as it is the bound of a public call.
pub trait Tabled {
    ghost carried: { Self → Numbers };

    ghost made: { Self → ℕ };

    fn numbers(&self) -> Numbers
        ensures { result ≡ carried self.now };

    // How many issues were made.
    fn issues(&self) -> u8
        ensures { result ≡ made self.now };
}

impl<S: HasTable> Tabled for DayIn<S> {
    ghost carried = { λ d. d.numbers };

    ghost made = { λ d. issues_in S.State.MADE d.numbers };

    fn numbers(&self) -> Numbers {
        self.numbers
    }

    fn issues(&self) -> u8 {
        self.issues()
    }
}

// Fills the page with the sheet of an hour, or says why not, and leaves it as it was.
fn fill_page<R: Sharing>(book: &Book, hour: u8, rule: &R, page: &mut Table) -> Result<(), Fault>
    requires { sound_records (held book.now) ≡ true }
    ensures value { MatchResult result (λ _. sheet_refusal (held book.now) hour ≡ None) (λ fault. sheet_refusal (held book.now) hour ≡ Some fault) }
    ensures after { page.new ≡ filled_with (sheet_refusal (held book.now) hour) page.old (sheet_of (R.Sharing.parts rule.now) (held book.now) hour) }
{
    let answer = fill_sheet(book, hour, rule, page);
    // How many cells it has, for the proof.
    let _ = page.as_slice();
    answer
}

// Fills a second table, the page, with the sheet of one hour of a settled or an issued day, under the rule of this call.
pub fn sheet<D: Tabled, R: Sharing>(
    day: D,
    hour: u8,
    rule: &R,
    book: &Book,
    table: &Table,
    ledger: &[Note],
    page: &mut Table,
) -> Result<D, Refused<D>>
    ensures { (result, page.new) ≡ sheet_gives (R.Sharing.parts rule.now) day (D.Tabled.carried day) (D.Tabled.made day) (memory (held book.now) table.now ledger.now) hour page.old }
{
    if !is_sound(&day.numbers(), day.issues(), book, table, ledger) {
        return Err(Refused::unsound(day));
    }
    match fill_page(book, hour, rule, page) {
        Ok(()) => Ok(day),
        Err(fault) => Err(Refused { day, fault }),
    }
}
