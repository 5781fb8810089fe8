// Day files at the limits of their fields. Each line of standard input is a name and a file in hexadecimal digits, `-` for no
// bytes; for each it prints the name, and then what is printed of the file.
#![tactic(auto)]

use anyhow::Context;
use book::book::Book;
use codes::table::Table;
use day_text::print::{LEDGER_ROOM, TEXT_ROOM, print_day};
use ledger::note::Note;
use script::hexadecimal::bytes_of;
use std::io::{Read, Write};

fn print(rt: &HostRuntime, book: &mut Book, file: &[u8]) -> anyhow::Result<()> {
    let mut table = Table::new();
    let mut ledger = [Note::none(); LEDGER_ROOM];
    let mut buffer = [0u8; TEXT_ROOM];
    let length = print_day(book, &mut table, &mut ledger, &mut buffer, file);
    rt.stdout().write_all(&buffer[..length])?;
    Ok(())
}

fn print_line(rt: &HostRuntime, book: &mut Book, name: &str, hex: &str) -> anyhow::Result<()> {
    println!(rt; "{name}")?;
    let digits = if hex.is_empty() { "-" } else { hex };
    let file = bytes_of(rt.alloc(), digits.as_bytes())?.context("not in hexadecimal digits")?;
    print(rt, book, file.as_slice())
}

fn run(rt: &HostRuntime) -> anyhow::Result<()> {
    let mut text = String::new(rt.alloc());
    rt.stdin().read_to_string(&mut text)?;
    let mut book = Book::new(rt.alloc())?;
    for line in text.lines() {
        if let Some((name, hex)) = line.split_once(' ') {
            print_line(rt, &mut book, name, hex)?;
        }
    }
    Ok(())
}

fn main(rt: HostRuntime) -> anyhow::Result<()> {
    run(&rt)
}
