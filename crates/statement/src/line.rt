// The lines of amounts, in a statement or a printed sheet.
ghost use Rattle.std.specs.Prelude.{◌≡◌, ◌≤◌, length};
ghost use Rattle.statement.specs.Lines.{amount_line, note_line};
ghost use Rattle.text.specs.Written.{HasRoom, Puts};

use crate::side::side_and_magnitude;
use codes::code::Code;
use ledger::note::Note;
use text::write::{Writer, decimal_length};

// How long the line of an amount is.
pub fn amount_line_length(party: u8, amount: i64) -> usize
    ensures value { (code : Code) → result ≡ length (amount_line code party amount) }
    ensures bound { result ≤ 47 }
{
    let (_, magnitude) = side_and_magnitude(amount);
    decimal_length(u64::from(party)) + decimal_length(magnitude) + 7
}

// Code, party, side and magnitude of an amount, and the end of the line.
pub fn put_amount_line(out: &mut Writer<'_, u8>, code: Code, party: u8, amount: i64)
    requires { HasRoom out.old (amount_line code party amount) }
    ensures { Puts out.old out.new (amount_line code party amount) }
{
    let row = code.row();
    let (side, magnitude) = side_and_magnitude(amount);
    out.put(&[row.letter, b'0' + row.digit]);
    out.put_word(u64::from(party));
    out.put(&[b' ', side.letter()]);
    out.put_word(magnitude);
    out.put(b"\n");
}

// How long the line of a note is.
pub fn note_line_length(note: &Note) -> usize
    ensures value { result ≡ length (note_line note.now) }
    ensures bound { result ≤ 47 }
{
    Code::try_from(note.code).map_or(0, |_| amount_line_length(note.party, note.amount))
}

// The line of a note; nothing where its code is none.
pub fn put_note_line(out: &mut Writer<'_, u8>, note: &Note)
    requires { HasRoom out.old (note_line note.now) }
    ensures { Puts out.old out.new (note_line note.now) }
{
    if let Ok(code) = Code::try_from(note.code) {
        put_amount_line(out, code, note.party, note.amount);
    }
}
