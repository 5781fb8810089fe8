// The text of an hour's sheet.
ghost use Rattle.std.specs.Prelude.{◌≡◌, ◌+◌, ◌*◌, ◌≤◌, length, Some};
ghost use Rattle.codes.specs.Cells.{cell_at};
ghost use Rattle.statement.specs.Statements.{last_line};
ghost use Rattle.text.specs.Written.{Puts, Wrote};
ghost use Rattle.script.specs.Sheets.{has_line, line_of, lines_in, lines_to, sheet_text};

use codes::table::{CELLS, Table, TableCell};
use statement::line::{amount_line_length, put_amount_line};
use text::write::Writer;

// Room that the text always fits: a line of at most 47 bytes for each cell, and the last line.
pub const SHEET_ROOM: usize = 25 + 47 * CELLS;

// The line of a cell; nothing for an amount of 0.
fn put_cell(out: &mut Writer<'_, u8>, cell: TableCell)
    requires { out.old.at + 47 ≤ length out.old.buffer.now }
    ensures put { Puts out.old out.new (line_of (Some cell)) }
    ensures bound { out.new.at ≤ out.old.at + 47 }
{
    if cell.amount == 0 {
        return;
    }
    // For its bound: a line is at most 47 bytes.
    let _ = amount_line_length(cell.party, cell.amount);
    put_amount_line(out, cell.code, cell.party, cell.amount);
}

// The line of the cell at a place.
fn put_place(out: &mut Writer<'_, u8>, page: &Table, place: usize)
    requires { out.old.at + 47 ≤ length out.old.buffer.now }
    ensures put { Puts out.old out.new (line_of (cell_at page.now place)) }
    ensures bound { out.new.at ≤ out.old.at + 47 }
{
    if let Some(cell) = page.cell(place) {
        put_cell(out, cell);
    }
}

// The lines of the first cells.
fn put_lines(out: &mut Writer<'_, u8>, page: &Table, count: usize)
    requires { out.old.at + 47 * count ≤ length out.old.buffer.now }
    ensures put { Puts out.old out.new (lines_to count page.now) }
    ensures bound { out.new.at ≤ out.old.at + 47 * count }
{
    // By place, and no `filter_map` over `page.cell`: the room is told by places.
    for place in 0..count {
        put_place(out, page, place);
    }
}

// Does the cell at a place have a line?
fn has_line(page: &Table, place: usize) -> bool
    ensures { result ≡ has_line (cell_at page.now place) }
{
    page.cell(place).is_some_and(|cell| cell.amount != 0)
}

// How many of the first cells have a line.
fn count_lines(page: &Table, count: usize) -> usize
    ensures { result ≡ lines_in count page.now }
{
    (0..count).filter(|place| has_line(page, *place)).count()
}

// The last line, for which there is room.
fn put_end(out: &mut Writer<'_, u8>, count: usize)
    requires { out.old.at + 25 ≤ length out.old.buffer.now }
    ensures { Puts out.old out.new (last_line count) }
{
    out.put_line(b"END", &[count as u64]);
}

// The whole text, for which there is room.
fn put_text(out: &mut Writer<'_, u8>, page: &Table)
    requires { out.old.at + 25029 ≤ length out.old.buffer.now }
    ensures { Puts out.old out.new (sheet_text page.now) }
{
    put_lines(out, page, CELLS);
    put_end(out, count_lines(page, CELLS));
}

// A line for each cell that is not 0, and a last line with their number. Answers the length of the text.
pub fn put_sheet(buffer: &mut [u8], page: &Table) -> usize
    requires { 25029 ≤ length buffer.old }
    ensures { Wrote buffer.old 0 (sheet_text page.now) buffer.new result }
{
    let mut out = Writer { buffer, at: 0 };
    put_text(&mut out, page);
    out.at
}
