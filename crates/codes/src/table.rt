// The table of amounts, by code and party.
ghost use Rattle.std.specs.Prelude.{◌≡◌, length};
ghost use Rattle.codes.specs.Cells.{Put, cell, cell_at, cell_count, empty_cells};
ghost use Rattle.codes.specs.Laws.{NumbersTellCodes, PlacesTellCells, PlacesTellParties};

use crate::code::{CODE_COUNT, Code, code_in};
use crate::party::{PARTIES, PARTY_COUNT, party_place};

pub const CELLS: usize = CODE_COUNT * PARTY_COUNT;

// An amount in mils for each code and party: the codes in order, and under each the parties in order. Whoever holds a
// table may write what they like into it. One array, not a row for each code: callers lend and read the cells as one list.
#[derive(Clone, Copy, Debug, PartialEq, Eq)]
pub struct Table {
    pub cells: [i64; CELLS],
}

// The amount of a code and a party. `put` takes the three apart: most callers have no such cell, and would make one for the call.
#[derive(Clone, Copy, Debug, PartialEq, Eq)]
pub struct TableCell {
    pub code: Code,
    pub party: u8,
    pub amount: i64,
}

impl Table {
    // A table of zeros.
    pub fn new() -> Table
        ensures { result.cells ≡ empty_cells }
    {
        Table { cells: [0; CELLS] }
    }

    // All cells, in order. How many there are a proof knows only where they are read as a slice.
    pub fn as_slice(&self) -> &[i64]
        ensures same { result.now ≡ self.now.cells }
        ensures count { length self.now.cells ≡ cell_count }
    {
        &self.cells
    }

    // The amount of the code and the party; 0 where there is no such party.
    pub fn amount(&self, code: Code, party: u8) -> i64
        ensures { result ≡ cell self.now code party }
    {
        party_place(party).map_or(0, |place| self.cells[code.index() * PARTY_COUNT + place])
    }

    // Puts the amount into the cell of the code and the party; nothing where there is no such party.
    pub fn put(&mut self, code: Code, party: u8, amount: i64)
        ensures { Put self.old self.new code party amount }
    {
        if let Some(place) = party_place(party) {
            self.cells[code.index() * PARTY_COUNT + place] = amount;
        }
    }

    // Code, party and amount of the cell at a place, if there are so many.
    pub fn cell(&self, place: usize) -> Option<TableCell>
        ensures { result ≡ cell_at self.now place }
    {
        let amount = *self.cells.get(place)?;
        Some(TableCell {
            code: code_in(place / PARTY_COUNT),
            party: PARTIES[place % PARTY_COUNT],
            amount,
        })
    }

    // 0 in every cell.
    pub fn clear(&mut self)
        ensures { self.new.cells ≡ empty_cells }
    {
        self.cells = [0; CELLS];
    }
}

// Codes, parties and cells are told by their numbers and places.
pub fn places_stand()
    ensures codes { NumbersTellCodes }
    ensures parties { PlacesTellParties }
    ensures cells { PlacesTellCells }
{}
