// A history from its beginning.
ghost use Rattle.std.specs.Prelude.{◌≡◌, ◌≤◌, [], length, vec_capacity};
ghost use Rattle.book.specs.Books.{held};
ghost use Rattle.day.specs.Memory.{memory};
ghost use Rattle.history.specs.Events.{lent};
ghost use Rattle.history.specs.Laws.{EveryHistoryKeepsTheLaws};
ghost use Rattle.history.specs.Replays.{Ran};

use crate::advance::{advance, begin};
use crate::laws::histories_keep_the_laws;
use crate::steps::{Answer, Begin, NotBegun, NotTaken, Replay, Step};
use book::book::Book;
use codes::table::Table;
use ledger::note::Note;
use sharing::rule::Sharing;
use std::alloc::Global;

// Makes the steps in turn after a beginning, up to the first that the day's state does not take. Book, table, ledger, page and
// buffer are lent apart, as `advance` takes them.
fn make_steps<'a, R: Sharing>(
    start: &Begin<'a>,
    answers: Vec<Answer>,
    steps: &[Step<'a, R>],
    book: &mut Book,
    table: &mut Table,
    ledger: &mut [Note],
    page: &mut Table,
    buffer: &mut [u8],
) -> Result<Replay, NotBegun>
    requires none { answers.items ≡ [] }
    requires room { length steps.now ≤ vec_capacity answers }
    ensures { Ran R.Sharing.parts start.now steps.now (memory (held book.old) table.old ledger.old) (lent page.old buffer.old) result (memory (held book.new) table.new ledger.new) (lent page.new buffer.new) }
{
    let mut answers = answers;
    let mut day = begin(start, book, table, ledger).map_err(NotBegun::Refused)?;
    for step in steps {
        match advance(day, step, book, table, ledger, page, buffer) {
            // Tried: `Ok((next, answer))`. The borrow checker does not cover a pattern that reaches further in here.
            Ok(made) => {
                let (next, answer) = made;
                day = next;
                answers.push_reserved(answer);
            }
            Err(not_taken) => {
                let NotTaken(same) = not_taken;
                return Ok(Replay { day: same, answers });
            }
        }
    }
    Ok(Replay { day, answers })
}

// Begins a history and makes the steps in turn, also after refused ones, up to the first that the day's state does not take.
pub fn replay<'a, R: Sharing>(
    heap: Global,
    start: &Begin<'a>,
    steps: &[Step<'a, R>],
    book: &mut Book,
    table: &mut Table,
    ledger: &mut [Note],
    page: &mut Table,
    buffer: &mut [u8],
) -> Result<Replay, NotBegun>
    ensures run { Ran R.Sharing.parts start.now steps.now (memory (held book.old) table.old ledger.old) (lent page.old buffer.old) result (memory (held book.new) table.new ledger.new) (lent page.new buffer.new) }
    ensures every { EveryHistoryKeepsTheLaws }
{
    histories_keep_the_laws();
    let answers = Vec::with_capacity(heap, steps.len()).map_err(NotBegun::NoMemory)?;
    make_steps(start, answers, steps, book, table, ledger, page, buffer)
}
