// Reads a day file from standard input, and prints the statement of its first issue under the running rule, or its refusal.
#![tactic(auto)]

use book::book::Book;
use codes::table::Table;
use day_text::print::{LEDGER_ROOM, TEXT_ROOM};
use ledger::note::Note;
use replayed_text::print::print_replayed_day;
use std::io::{Read, Write};

fn print(rt: &HostRuntime, book: &mut Book, file: &[u8]) -> anyhow::Result<()> {
    let mut table = Table::new();
    let mut page = Table::new();
    let mut ledger = [Note::none(); LEDGER_ROOM];
    let mut buffer = [0u8; TEXT_ROOM];
    let length = print_replayed_day(
        rt.alloc(),
        book,
        &mut table,
        &mut ledger,
        &mut page,
        &mut buffer,
        file,
    )?;
    rt.stdout().write_all(&buffer[0..length])?;
    Ok(())
}

fn run(rt: &HostRuntime) -> anyhow::Result<()> {
    let mut file = Vec::new(rt.alloc());
    rt.stdin().read_to_end(&mut file)?;
    let mut book = Book::new(rt.alloc())?;
    print(rt, &mut book, file.as_slice())
}

fn main(rt: HostRuntime) -> anyhow::Result<()> {
    run(&rt)
}
