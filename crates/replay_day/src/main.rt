// Runs a script of calls from standard input, and prints what each of them answered.
#![tactic(auto)]

mod answers;
mod held;
mod memory;
mod replay;

use crate::replay::Replay;
use script::words::cut_line;
use std::io::{BufWriter, Read, Write};

fn run_lines(rt: &HostRuntime, script: &[u8]) -> anyhow::Result<()> {
    let mut replay = Replay::new(rt.alloc())?;
    let mut out = BufWriter::new(rt.alloc(), rt.stdout())?;
    let mut rest = script;
    // By `cut_line`, which takes a line off the front of what is left.
    while !rest.is_empty() {
        let (line, after) = cut_line(rest);
        replay.run_line(rt, line, &mut out)?;
        rest = after;
    }
    out.flush()?;
    Ok(())
}

fn run(rt: &HostRuntime) -> anyhow::Result<()> {
    let mut script = Vec::new(rt.alloc());
    rt.stdin().read_to_end(&mut script)?;
    run_lines(rt, script.as_slice())
}

fn main(rt: HostRuntime) -> anyhow::Result<()> {
    run(&rt)
}
