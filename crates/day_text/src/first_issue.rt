// The first issue of a table, and its statement.
ghost use Rattle.std.specs.Prelude.{◌≡◌, ℕ, ◌/◌, ◌≤◌, true, length, take, unsigned_abs};
ghost use Rattle.codes.specs.Cells.{cell, cell_count};
ghost use Rattle.codes.specs.declared.code.Code.{Code};
ghost use Rattle.ledger.specs.Issues.{notes_of};
ghost use Rattle.ledger.specs.Notes.{amount_limit, sound_notes};
ghost use Rattle.statement.specs.Statements.{statement_room, statement_text};
ghost use Rattle.text.specs.Written.{left_if_fits};

use codes::table::Table;
use dayfile::heading::Heading;
use ledger::issue::issue;
use ledger::note::{Note, clear};
use statement::issued::statement;

// Issues the table into an empty ledger with room for every cell, and answers how many notes there are.
pub fn issue_first(ledger: &mut [Note], table: &Table) -> usize
    requires room { cell_count ≤ length ledger.old }
    requires small { (code : Code) (party : ℕ) → unsigned_abs (cell table.now code party) ≤ amount_limit / 2 }
    ensures notes { take result ledger.new ≡ notes_of 0 (cell table.now) }
    ensures few { result ≤ cell_count }
    ensures sound { sound_notes ledger.new result 1 ≡ true }
{
    // How many cells it has, for the proof.
    let _ = table.as_slice();
    clear(ledger);
    issue(ledger, 0, 0, table).unwrap()
}

// The statement of the first issue, for which there is room.
pub fn state_first(heading: &Heading, ledger: &[Note], notes: usize, buffer: &mut [u8]) -> usize
    requires sound { sound_notes ledger.now notes 1 ≡ true }
    requires few { notes ≤ cell_count }
    requires room { statement_room cell_count ≤ length buffer.old }
    ensures answer { result ≡ length (statement_text heading.now (take notes ledger.now) 0) }
    ensures after { buffer.new ≡ left_if_fits (statement_text heading.now (take notes ledger.now) 0) buffer.old }
    ensures within { result ≤ length buffer.old }
{
    statement(heading, ledger, notes, 1, 0, buffer).unwrap()
}
