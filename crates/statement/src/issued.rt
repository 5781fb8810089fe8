// The statement of an issue.
ghost use Rattle.std.specs.Prelude.{◌≡◌, ◌*◌, ◌<◌, ◌≤◌, true, length, take, is_ok};
ghost use Rattle.std.specs.List.{flat_map};
ghost use Rattle.ledger.specs.Notes.{sound_notes};
ghost use Rattle.statement.specs.Lines.{note_line};
ghost use Rattle.statement.specs.Statements.{day_name, digit_of, first_line, last_line, of_issue, statement_answer, statement_leaves, statement_room, statement_text};
ghost use Rattle.text.specs.Written.{HasRoom, Puts, left_if_fits, length_if_fits};

use crate::line::{note_line_length, put_note_line};
use dayfile::heading::Heading;
use faults::fault::Fault;
use faults::refusal::Refusal;
use ledger::note::Note;
use text::write::{Writer, words_length};

fn digit(n: u16, unit: u16) -> u8
    requires { 0 < unit }
    ensures { result ≡ digit_of n unit }
{
    b'0' + (n / unit % 10) as u8
}

// DAY and the date, digit by digit: nothing may be allocated, and `write!` into lent bytes would have to be shown to fit.
fn day_name(heading: &Heading) -> [u8; 14]
    ensures { result ≡ day_name heading.now }
{
    let year = heading.year;
    let month = u16::from(heading.month);
    let day = u16::from(heading.day);
    [
        b'D',
        b'A',
        b'Y',
        b' ',
        digit(year, 1000),
        digit(year, 100),
        digit(year, 10),
        digit(year, 1),
        b'-',
        digit(month, 10),
        digit(month, 1),
        b'-',
        digit(day, 10),
        digit(day, 1),
    ]
}

// How many notes the issue has. An issue is a number, here and below: one that names no issue is refused.
fn count_in(notes: &[Note], issue: u8) -> usize
    ensures { result ≡ length (of_issue issue notes.now) }
{
    notes.iter().filter(|note| note.issue == issue).count()
}

// How long the lines of the issue's notes are. The notes are bounded, here and below, so that the length of the text fits.
fn lines_length(notes: &[Note], issue: u8) -> usize
    requires { length notes.now ≤ 100000000 }
    ensures value { result ≡ length (flat_map note_line (of_issue issue notes.now)) }
    ensures bound { result ≤ 47 * length notes.now }
{
    // Tried: `.map(note_line_length).sum()`. The bound of the sum stayed open.
    let mut total = 0;
    for note in notes.iter().filter(|note| note.issue == issue) {
        total += note_line_length(note);
    }
    total
}

fn put_lines(out: &mut Writer<'_, u8>, notes: &[Note], issue: u8)
    requires { HasRoom out.old (flat_map note_line (of_issue issue notes.now)) }
    ensures { Puts out.old out.new (flat_map note_line (of_issue issue notes.now)) }
{
    for note in notes.iter().filter(|note| note.issue == issue) {
        put_note_line(out, note);
    }
}

fn first_line_length(heading: &Heading, issue: u8) -> usize
    ensures value { result ≡ length (first_line heading.now issue) }
    ensures bound { result ≤ 57 }
{
    14 + words_length(&[u64::from(heading.hours), u64::from(issue)]) + 1
}

fn put_first_line(out: &mut Writer<'_, u8>, heading: &Heading, issue: u8)
    requires { HasRoom out.old (first_line heading.now issue) }
    ensures { Puts out.old out.new (first_line heading.now issue) }
{
    let name = day_name(heading);
    out.put_line(&name, &[u64::from(heading.hours), u64::from(issue)]);
}

fn last_line_length(count: usize) -> usize
    ensures value { result ≡ length (last_line count) }
    ensures bound { result ≤ 25 }
{
    3 + words_length(&[count as u64]) + 1
}

#[tactic(auto, unfolding(crate::specs::Statements::last_line))]
fn put_last_line(out: &mut Writer<'_, u8>, count: usize)
    requires { HasRoom out.old (last_line count) }
    ensures { Puts out.old out.new (last_line count) }
{
    out.put_line(b"END", &[count as u64]);
}

// How long the whole text is. Heading, notes and issue stay three parameters: a struct of them lengthens every clause that
// names one.
fn text_length(heading: &Heading, notes: &[Note], issue: u8) -> usize
    requires { length notes.now ≤ 100000000 }
    ensures { result ≡ length (statement_text heading.now notes.now issue) }
{
    first_line_length(heading, issue)
        + lines_length(notes, issue)
        + last_line_length(count_in(notes, issue))
}

// The whole text, for which there is room.
fn put_text(out: &mut Writer<'_, u8>, heading: &Heading, notes: &[Note], issue: u8)
    requires { HasRoom out.old (statement_text heading.now notes.now issue) }
    ensures { Puts out.old out.new (statement_text heading.now notes.now issue) }
{
    put_first_line(out, heading, issue);
    put_lines(out, notes, issue);
    put_last_line(out, count_in(notes, issue));
}

// The whole text where the buffer has room for it; else nothing is written.
fn put_statement(buffer: &mut [u8], heading: &Heading, notes: &[Note], issue: u8) -> Option<usize>
    requires { length notes.now ≤ 100000000 }
    ensures answer { result ≡ length_if_fits (statement_text heading.now notes.now issue) buffer.old }
    ensures after { buffer.new ≡ left_if_fits (statement_text heading.now notes.now issue) buffer.old }
{
    if text_length(heading, notes, issue) > buffer.len() {
        return None;
    }
    let mut out = Writer { buffer, at: 0 };
    put_text(&mut out, heading, notes, issue);
    Some(out.at)
}

// The text of an issue: its length, or why it was refused. The notes are sound ones.
pub fn statement(
    heading: &Heading,
    ledger: &[Note],
    notes: usize,
    issues: u8,
    issue: u8,
    buffer: &mut [u8],
) -> Result<usize, Fault>
    requires { sound_notes ledger.now notes issues ≡ true }
    ensures answer { result ≡ statement_answer heading.now (take notes ledger.now) issues issue buffer.old }
    ensures after { buffer.new ≡ statement_leaves heading.now (take notes ledger.now) issues issue buffer.old }
    ensures fits { issue < issues → statement_room notes ≤ length buffer.old → is_ok result ≡ true }
{
    if issue < issues {
        put_statement(buffer, heading, &ledger[..notes], issue).ok_or(Fault::plain(
            Refusal::BufferTooShort,
        ))
    } else {
        Err(Fault::plain(Refusal::OutOfRange))
    }
}
