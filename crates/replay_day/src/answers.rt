// How answers are printed.
use faults::fault::Fault;
use std::io::Write;
use text::refused::{REFUSED_ROOM, put_refused};

// The line of a script as it stands there.
pub fn print_line<W: Write>(out: &mut W, line: &[u8]) -> anyhow::Result<()> {
    out.write_all(b"> ")?;
    out.write_all(line)?;
    Ok(out.write_all(b"\n")?)
}

pub fn print_refused<W: Write>(out: &mut W, fault: &Fault) -> anyhow::Result<()> {
    let mut line = [0u8; REFUSED_ROOM];
    if let Some(length) = put_refused(&mut line, fault) {
        out.write_all(&line[..length])?;
    }
    Ok(())
}
