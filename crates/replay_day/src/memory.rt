// The memory that the calls of a script are lent.
use book::book::Book;
use codes::table::Table;
use ledger::note::Note;
use std::alloc::{AllocError, Global};

// How many entries the ledger has, and how many bytes the buffer.
#[derive(Clone, Copy)]
pub struct Sizes {
    pub ledger: usize,
    pub buffer: usize,
}

// What a script has that asks for nothing else.
pub const FIRST_SIZES: Sizes = Sizes {
    ledger: 2128,
    buffer: 65536,
};

#[derive(Drop)]
pub struct Memory {
    pub book: Book,
    pub table: Table,
    pub ledger: Vec<Note>,
    // For sheets.
    pub page: Table,
    // For statements.
    pub buffer: Vec<u8>,
}

impl Memory {
    pub fn new(heap: Global) -> Result<Memory, AllocError> {
        Ok(Memory {
            book: Book::new(heap)?,
            table: Table::new(),
            ledger: Vec::new(heap),
            page: Table::new(),
            buffer: Vec::new(heap),
        })
    }

    pub fn resize(&mut self, sizes: Sizes) -> Result<(), AllocError> {
        self.ledger.resize(sizes.ledger, Note::none())?;
        self.buffer.resize(sizes.buffer, 0)
    }
}
