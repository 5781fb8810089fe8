// Loads good and bad files into one book, and prints what comes of each.
#![tactic(auto)]

use book::book::Book;
use loading::load::load;
use std::alloc::{AllocError, Global};
use std::io;

// 2019-03-05, 24 hours, 3 accounts, 1 node, 1 interconnection.
const HEADING: &[u8] = b"DY\x07\xe3\x03\x05\x18\x03\x01\x01";
// Node 1, hour 7: 50,000 and 60,000.
const PRICE: &[u8] = b"PN\x01\x07\x00\x00\xc3\x50\x00\x00\xea\x60";
// Account 1, node 1, hour 7, generation: 3,000 and 3,100.
const POSITION: &[u8] = b"EN\x01\x01\x07\x01\x00\x00\x0b\xb8\x00\x00\x0c\x1c";
// Interconnection 1, system 1, node 1, hour 7: real-time export 100, imbalance price 55,000.
const EXCHANGE: &[u8] = b"IX\x01\x01\x01\x07\0\0\0\0\0\0\0\0\0\0\0\x64\0\0\0\0\x00\x00\xd6\xd8";

// A heading and so many fines on account 1, with identifiers from 0 on.
fn with_fines(heap: Global, count: u8) -> Result<Vec<u8>, AllocError> {
    let mut file = Vec::from_slice(heap, HEADING)?;
    for i in 0..count {
        file.extend_from_slice(&[b'M', b'U', 0, 0, 0, i, 1, 0, 0, 0, 0, 0, 0, 0, 1])?;
    }
    file.extend_from_slice(&[b'Z', b'Z', 0, count.saturating_add(1)])?;
    Ok(file)
}

// What comes of loading the file, and how many records the book then holds.
fn show(rt: &HostRuntime, book: &mut Book, name: &str, file: &[u8]) -> io::Result<()> {
    let answer = load(book, file);
    let left = book.record_count();
    match answer {
        Ok(()) => println!(rt; "{name}: accepted, {left} records"),
        Err(fault) => println!(rt; "{name}: refused {fault}, {left} records"),
    }
}

fn show_parts(rt: &HostRuntime, book: &mut Book, name: &str, parts: &[&[u8]]) -> io::Result<()> {
    let file = parts.concat(rt.alloc())?;
    show(rt, book, name, &file)
}

fn headings(rt: &HostRuntime, book: &mut Book) -> io::Result<()> {
    show(rt, book, "an empty file", b"")?;
    show(rt, book, "one byte", b"D")?;
    show(rt, book, "a heading cut short", b"DY\x07\xe3\x03")?;
    show(rt, book, "no heading", PRICE)?;
    show(
        rt,
        book,
        "29 February of a common year",
        b"DY\x07\xe3\x02\x1d\x18\x03\x01\x01ZZ\x00\x01",
    )?;
    show(
        rt,
        book,
        "29 February of a leap year",
        b"DY\x07\xe4\x02\x1d\x18\x03\x01\x01ZZ\x00\x01",
    )?;
    show(
        rt,
        book,
        "25 hours",
        b"DY\x07\xe3\x03\x05\x19\x03\x01\x01ZZ\x00\x01",
    )?;
    show(
        rt,
        book,
        "26 hours",
        b"DY\x07\xe3\x03\x05\x1a\x03\x01\x01ZZ\x00\x01",
    )
}

fn records(rt: &HostRuntime, book: &mut Book) -> io::Result<()> {
    show_parts(rt, book, "an unknown mark", &[HEADING, b"QQ\x00\x01"])?;
    show_parts(
        rt,
        book,
        "a record cut short",
        &[HEADING, b"PN\x01\x07\x00"],
    )?;
    show_parts(rt, book, "a second heading", &[HEADING, PRICE, HEADING])?;
    show_parts(
        rt,
        book,
        "hour 0",
        &[HEADING, b"PN\x01\x00\x00\x00\xc3\x50\x00\x00\xea\x60"],
    )?;
    show_parts(
        rt,
        book,
        "an hour above the heading",
        &[HEADING, b"PN\x01\x19\x00\x00\xc3\x50\x00\x00\xea\x60"],
    )?;
    show_parts(
        rt,
        book,
        "a price of 10,000,001",
        &[HEADING, b"PN\x01\x07\x00\x98\x96\x81\x00\x00\xea\x60"],
    )?;
    show_parts(
        rt,
        book,
        "a price of -10,000,001",
        &[HEADING, b"PN\x01\x07\xff\x67\x69\x7f\x00\x00\xea\x60"],
    )?;
    show_parts(
        rt,
        book,
        "class 5",
        &[
            HEADING,
            b"EN\x01\x01\x07\x05\x00\x00\x0b\xb8\x00\x00\x0c\x1c",
        ],
    )?;
    show_parts(
        rt,
        book,
        "2,000,001 kWh",
        &[
            HEADING,
            b"EN\x01\x01\x07\x01\x00\x00\x0b\xb8\x00\x1e\x84\x81",
        ],
    )?;
    show_parts(
        rt,
        book,
        "out of range and above the heading",
        &[
            HEADING,
            b"EN\x09\x01\x00\x01\x00\x00\x0b\xb8\x00\x00\x0c\x1c",
        ],
    )?;
    show_parts(rt, book, "a price twice", &[HEADING, PRICE, PRICE])
}

fn ends(rt: &HostRuntime, book: &mut Book) -> io::Result<()> {
    show_parts(rt, book, "no end", &[HEADING, PRICE])?;
    show_parts(
        rt,
        book,
        "one byte in place of an end",
        &[HEADING, PRICE, b"Z"],
    )?;
    show_parts(
        rt,
        book,
        "an end too early",
        &[HEADING, PRICE, b"ZZ\x00\x03", POSITION],
    )?;
    show_parts(rt, book, "a wrong count", &[HEADING, PRICE, b"ZZ\x00\x01"])?;
    show_parts(
        rt,
        book,
        "bytes after the end",
        &[HEADING, PRICE, b"ZZ\x00\x02\x00"],
    )?;
    show_parts(
        rt,
        book,
        "a position without a price",
        &[HEADING, POSITION, b"ZZ\x00\x02"],
    )?;
    show_parts(
        rt,
        book,
        "an interconnection without a price",
        &[HEADING, EXCHANGE, b"ZZ\x00\x02"],
    )?;
    show_parts(
        rt,
        book,
        "no price, and bytes after the end",
        &[HEADING, POSITION, b"ZZ\x00\x02\x00"],
    )?;
    show_parts(
        rt,
        book,
        "a good file",
        &[HEADING, POSITION, EXCHANGE, PRICE, b"ZZ\x00\x04"],
    )
}

fn main(rt: HostRuntime) -> io::Result<()> {
    let mut book = Book::new(rt.alloc())?;
    headings(&rt, &mut book)?;
    records(&rt, &mut book)?;
    ends(&rt, &mut book)?;
    let full = with_fines(rt.alloc(), 50)?;
    show(&rt, &mut book, "a full table of fines", &full)?;
    let overfull = with_fines(rt.alloc(), 51)?;
    show(&rt, &mut book, "one fine too many", &overfull)
}
