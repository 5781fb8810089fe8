// What is printed of a day file, by one replayed history of calls on the day.
ghost use Rattle.std.specs.Prelude.{◌≡◌, ◌≤◌, [], ◌∷◌, length, IfOk, MatchResult};
ghost use Rattle.codes.specs.Cells.{cell_count};
ghost use Rattle.history.specs.declared.steps.Step.TheVariants.{Issue, Settle, Statement};
ghost use Rattle.text.specs.Lines.{refused_room};
ghost use Rattle.text.specs.Written.{left_if_fits};
ghost use Rattle.replayed_text.specs.Answered.{LineFits, answered_length, answered_text, last_answer};
ghost use Rattle.day_text.specs.Texts.{printed_text, text_room};

use book::book::Book;
use codes::table::Table;
use day_text::print::{LEDGER_ROOM, TEXT_ROOM, put_fault};
use faults::fault::Fault;
use history::replay::replay;
use history::steps::{Answer, Begin, NotBegun, Outcome, Replay, Step};
use ledger::note::Note;
use sharing::running::Running;
use std::alloc::{AllocError, Global};

// Writes the line of a refused call. A statement has written its text itself, and no other answer has a text.
fn put_answer(buffer: &mut [u8], answer: &Answer) -> usize
    requires { refused_room ≤ length buffer.old }
    ensures length { result ≡ answered_length answer.now }
    ensures after { buffer.new ≡ answered_text answer.now buffer.old }
    ensures fits { LineFits answer.now buffer.old }
{
    match answer {
        Err(fault) => put_fault(buffer, fault),
        Ok(Outcome::Written(length)) => *length,
        Ok(Outcome::Added(_) | Outcome::Done) => 0,
    }
}

// The same for the last of the answers.
fn put_last(buffer: &mut [u8], answers: &[Answer]) -> usize
    requires { refused_room ≤ length buffer.old }
    ensures length { result ≡ answered_length (last_answer answers.now) }
    ensures after { buffer.new ≡ answered_text (last_answer answers.now) buffer.old }
    ensures fits { LineFits (last_answer answers.now) buffer.old }
{
    // Tried: `map_or`. No proof follows what its closure writes into the buffer.
    match answers.last() {
        Some(answer) => put_answer(buffer, answer),
        None => 0,
    }
}

// Settles, issues, and states that issue, which is the first.
fn first_issue<'a>(rule: &'a Running) -> [Step<'a, Running>; 3]
    ensures { result ≡ Settle rule.entry ∷ Issue ∷ Statement 0 ∷ [] }
{
    [Step::Settle(rule), Step::Issue, Step::Statement(0)]
}

// The same at the end of a replay. A day is never dropped: its numbers are let go.
fn put_end(buffer: &mut [u8], end: Replay) -> usize
    requires { refused_room ≤ length buffer.old }
    ensures length { result ≡ answered_length (last_answer end.answers.items) }
    ensures after { buffer.new ≡ answered_text (last_answer end.answers.items) buffer.old }
    ensures fits { LineFits (last_answer end.answers.items) buffer.old }
{
    let Replay { day, answers } = end;
    let _ = day.into_numbers();
    put_last(buffer, &answers)
}

// The whole run. Slices are lent here and above, as a proof knows an array's length only as a slice's; the room that is asked
// is what the arrays of `print_replayed_day` have.
fn put_replayed(
    heap: Global,
    book: &mut Book,
    table: &mut Table,
    ledger: &mut [Note],
    page: &mut Table,
    buffer: &mut [u8],
    file: &[u8],
) -> Result<usize, AllocError>
    requires ledger { cell_count ≤ length ledger.old }
    requires buffer { text_room ≤ length buffer.old }
    ensures answer { IfOk result (λ n. n ≡ length (printed_text file.now)) }
    ensures after { MatchResult result (λ _. buffer.new ≡ left_if_fits (printed_text file.now) buffer.old) (λ _. buffer.new ≡ buffer.old) }
    ensures within { IfOk result (λ n. n ≤ length buffer.old) }
{
    let steps = first_issue(&Running);
    match replay(
        heap,
        &Begin::Load(file),
        &steps,
        book,
        table,
        ledger,
        page,
        buffer,
    ) {
        Ok(end) => Ok(put_end(buffer, end)),
        Err(NotBegun::Refused(fault)) => Ok(put_fault(buffer, &fault)),
        Err(NotBegun::NoMemory(e)) => Err(e),
    }
}

// Loads a day file, settles it under the running rule, issues it, and writes the statement of that issue; or, where the file
// or the settlement is refused, the line of the refusal. The answer is the length of the text. The ledger has room for every
// note, and the buffer for every text: only memory can be wanting, and then nothing was done.
pub fn print_replayed_day(
    heap: Global,
    book: &mut Book,
    table: &mut Table,
    ledger: &mut [Note; LEDGER_ROOM],
    page: &mut Table,
    buffer: &mut [u8; TEXT_ROOM],
    file: &[u8],
) -> Result<usize, AllocError>
    ensures answer { IfOk result (λ n. n ≡ length (printed_text file.now)) }
    ensures after { MatchResult result (λ _. buffer.new ≡ left_if_fits (printed_text file.now) buffer.old) (λ _. buffer.new ≡ buffer.old) }
    ensures within { IfOk result (λ n. n ≤ text_room) }
{
    put_replayed(heap, book, table, ledger, page, buffer, file)
}
