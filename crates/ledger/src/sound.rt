// Whether the notes of a ledger, and the cells of a table, could be those that the calls of a day left.
ghost use Rattle.std.specs.Prelude.{◌≡◌};
ghost use Rattle.ledger.specs.Notes.{known, sound_list, sound_next, sound_note, sound_notes, within, within_limit};

use crate::note::{AMOUNT_LIMIT, Note};
use codes::code::Code;
use codes::party::party_place;
use codes::table::Table;

fn amount_within(amount: i64) -> bool
    ensures { result ≡ within amount }
{
    amount.unsigned_abs() <= AMOUNT_LIMIT
}

#[tactic(auto, unfolding(crate::specs::Notes::known))]
fn is_known(note: &Note) -> bool
    ensures { result ≡ known note.now }
{
    Code::try_from(note.code).is_ok() && party_place(note.party).is_some()
}

fn is_sound(note: &Note, issues: u8) -> bool
    ensures { result ≡ sound_note issues note.now }
{
    is_known(note) && amount_within(note.amount) && note.amount != 0 && note.issue < issues
}

fn is_next(note: &Note, last: &Note, issues: u8) -> bool
    ensures { result ≡ sound_next issues last.now note.now }
{
    last.precedes(note) && is_sound(note, issues)
}

// Is each note sound, and after the one before it?
fn are_sound_notes(notes: &[Note], issues: u8) -> bool
    ensures { result ≡ sound_list issues notes.now }
{
    // Tried as a chain of each note beside the one before it: it proves, and takes half as long again.
    let mut last = Note::none();
    for note in notes {
        if !is_next(note, &last, issues) {
            return false;
        }
        last = *note;
    }
    true
}

// Are the first entries of the ledger, as many as `notes`, sound notes of the first `issues` issues? Ledger and counts come
// apart here and in calls that rely on the answer, as the memory that callers lend holds them.
pub fn are_sound(ledger: &[Note], notes: usize, issues: u8) -> bool
    ensures { result ≡ sound_notes ledger.now notes issues }
{
    notes <= ledger.len() && are_sound_notes(&ledger[..notes], issues)
}

// Does no cell pass the limit?
#[tactic(auto, unfolding(crate::specs::Notes::within_limit))]
pub fn is_within(table: &Table) -> bool
    ensures { result ≡ within_limit table.now }
{
    table.cells.iter().all(|amount| amount_within(*amount))
}
