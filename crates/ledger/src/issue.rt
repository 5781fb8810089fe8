// What an issue adds to the ledger.
ghost use Rattle.std.specs.Prelude.{count_by, sum_by, ◌≡◌, ℕ, ◌+◌, ◌*◌, ◌≤◌, true, length, ◌-ℤ◌, nat_le, unsigned_abs};
ghost use Rattle.std.specs.List.{flat_map};
ghost use Rattle.codes.specs.Cells.{cell};
ghost use Rattle.codes.specs.declared.code.Code.{Code};
ghost use Rattle.ledger.specs.Issues.{counted, issue_answer, issue_leaves, new_notes, note_for, noted, notes_of, row_notes};
ghost use Rattle.ledger.specs.Steps.{AllTakeable, Takeable, TakenOff, holdable, rows_notes, takes_note};
ghost use Rattle.ledger.specs.Laws.{HalvesDifferWithinTheLimit, IssuesAppend, IssuesBalance, IssuesBearTheirNumber, IssuesKeepNotesSound, IssuesReachTheCells};
ghost use Rattle.ledger.specs.Notes.{sound_notes, within_limit};
ghost use Rattle.text.specs.Written.{HasRoom, Puts};

use crate::note::Note;
use codes::code::{CODES, Code, CodeRow};
use codes::party::PARTIES;
use codes::table::Table;
use faults::fault::Fault;
use faults::refusal::Refusal;
use text::write::Writer;

// What the cell of the note's party has over the note.
fn less(rest: &Table, code: Code, note: &Note) -> i64
    requires { unsigned_abs (cell rest.now code note.now.party -ℤ note.now.amount) ≤ holdable }
    ensures { result ≡ cell rest.now code note.now.party -ℤ note.now.amount }
{
    rest.amount(code, note.party) - note.amount
}

// Takes the note's amount off the cell of its code and party.
fn take_off(rest: &mut Table, note: &Note)
    requires { Takeable rest.old note.now }
    ensures { TakenOff rest.old rest.new (λ code party. counted code party note.now) }
{
    if let Ok(code) = Code::try_from(note.code) {
        let left = less(rest, code, note);
        rest.put(code, note.party, left);
    }
}

// Takes every note's amount off its cell. A loop: each step changes the table.
fn take_off_all(rest: &mut Table, notes: &[Note])
    requires { AllTakeable rest.old notes.now }
    ensures { TakenOff rest.old rest.new (noted notes.now) }
{
    for note in notes {
        take_off(rest, note);
    }
}

// What each cell has over its earlier notes.
fn over(table: &Table, notes: &[Note]) -> Table
    requires { AllTakeable table.now notes.now }
    ensures { TakenOff table.now result (noted notes.now) }
{
    let mut rest = *table;
    take_off_all(&mut rest, notes);
    rest
}

// Does the cell take a note? An amount of 0 takes none.
fn takes_note(rest: &Table, code: Code, party: u8) -> bool
    ensures { result ≡ takes_note (cell rest.now) code party }
{
    rest.amount(code, party) != 0
}

// How many notes a code takes.
fn count_row(rest: &Table, code: Code, parties: &[u8]) -> usize
    requires { length parties.now ≤ 1000 }
    ensures value { result ≡ count_by (takes_note (cell rest.now) code) parties.now }
    ensures bound { result ≤ 1000 }
{
    parties
        .iter()
        .filter(|party| takes_note(rest, code, **party))
        .count()
}

// How many notes the codes take.
fn count_rows(rest: &Table, rows: &[CodeRow], parties: &[u8]) -> usize
    requires some_rows { length rows.now ≤ 1000 }
    requires some_parties { length parties.now ≤ 1000 }
    ensures { result ≡ sum_by (λ row. count_by (takes_note (cell rest.now) row.code) parties.now) rows.now }
{
    rows.iter()
        .map(|row| count_row(rest, row.code, parties))
        .sum()
}

// How many cells are not 0.
fn count_notes(rest: &Table) -> usize
    ensures { (number : ℕ) → result ≡ length (notes_of number (cell rest.now)) }
{
    count_rows(rest, &CODES, &PARTIES)
}

// The note for an amount, if it is not 0. The issue is a number, as `IssueNumber` belongs to `day`, which is above. Writer,
// issue and rest come apart, here and below: a struct of them lengthens every clause that names one.
fn put_note(out: &mut Writer<'_, Note>, issue: u8, code: Code, party: u8, amount: i64)
    requires { HasRoom out.old (note_for issue code party amount) }
    ensures { Puts out.old out.new (note_for issue code party amount) }
{
    if amount != 0 {
        out.put(&[Note {
            issue,
            code: u8::from(code),
            party,
            amount,
        }]);
    }
}

// The notes of a code.
#[tactic(auto, unfolding(crate::specs::Issues::row_notes))]
fn put_row(out: &mut Writer<'_, Note>, issue: u8, rest: &Table, code: Code, parties: &[u8])
    requires { HasRoom out.old (row_notes issue (cell rest.now) parties.now code) }
    ensures { Puts out.old out.new (row_notes issue (cell rest.now) parties.now code) }
{
    for party in parties {
        put_note(out, issue, code, *party, rest.amount(code, *party));
    }
}

// The notes of the codes.
fn put_rows(out: &mut Writer<'_, Note>, issue: u8, rest: &Table, rows: &[CodeRow])
    requires { HasRoom out.old (flat_map (rows_notes issue (cell rest.now)) rows.now) }
    ensures { Puts out.old out.new (flat_map (rows_notes issue (cell rest.now)) rows.now) }
{
    for row in rows {
        put_row(out, issue, rest, row.code, &PARTIES);
    }
}

// A note for each cell that is not 0.
fn put_notes(out: &mut Writer<'_, Note>, issue: u8, rest: &Table)
    requires { HasRoom out.old (notes_of issue (cell rest.now)) }
    ensures { Puts out.old out.new (notes_of issue (cell rest.now)) }
{
    put_rows(out, issue, rest, &CODES);
}

// Is there room for so many entries behind the first `notes`?
fn has_room(ledger: &[Note], notes: usize, added: usize) -> bool
    requires { notes ≤ length ledger.now }
    ensures { result ≡ nat_le (notes + added) (length ledger.now) }
{
    added <= ledger.len() - notes
}

// A note for each cell of `rest` that is not 0, behind the first entries of the ledger, if there is room for all of them.
fn add_notes(ledger: &mut [Note], notes: usize, issue: u8, rest: &Table) -> Result<usize, Fault>
    requires { notes ≤ length ledger.old }
    ensures answer { result ≡ issue_answer ledger.old notes (notes_of issue (cell rest.now)) }
    ensures after { ledger.new ≡ issue_leaves ledger.old notes (notes_of issue (cell rest.now)) }
{
    let added = count_notes(rest);
    if !has_room(ledger, notes, added) {
        return Err(Fault::plain(Refusal::LedgerFull));
    }
    let mut out = Writer {
        buffer: ledger,
        at: notes,
    };
    put_notes(&mut out, issue, rest);
    Ok(added)
}

// Issues the table: a note for each cell that differs from the sum of its earlier notes, behind them. The notes and the
// table are sound, and there is an issue left; the new one has the number `issues`. The answer is how many notes it added.
pub fn issue(ledger: &mut [Note], notes: usize, issues: u8, table: &Table) -> Result<usize, Fault>
    requires sound { sound_notes ledger.old notes issues ≡ true }
    requires limited { within_limit table.now ≡ true }
    requires left { issues ≤ 3 }
    ensures answer { result ≡ issue_answer ledger.old notes (new_notes ledger.old notes issues table.now) }
    ensures after { ledger.new ≡ issue_leaves ledger.old notes (new_notes ledger.old notes issues table.now) }
{
    let rest = over(table, &ledger[..notes]);
    add_notes(ledger, notes, issues, &rest)
}

// What holds of every issue on sound notes.
pub fn issues_stand()
    ensures append { IssuesAppend }
    ensures reach { IssuesReachTheCells }
    ensures balances { IssuesBalance }
    ensures bear { IssuesBearTheirNumber }
    ensures keep { IssuesKeepNotesSound }
    ensures halves { HalvesDifferWithinTheLimit }
{}
