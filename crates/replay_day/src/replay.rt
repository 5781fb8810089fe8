// A script as it is run: the day, its memory, and the sizes that the next one gets.
use crate::answers::{print_line, print_refused};
use crate::held::Held;
use crate::memory::{FIRST_SIZES, Memory, Sizes};
use history::advance::{advance, begin};
use history::steps::{Answer, Begin, NotTaken, Outcome, Step};
use script::command::{Call, Command, command_of};
use script::hexadecimal::bytes_of;
use script::sheet::{SHEET_ROOM, put_sheet};
use script::words::words_of;
use sharing::choice::Rule;
use std::alloc::{AllocError, Global};
use std::io::Write;
use std::{fs, io};

#[derive(Drop)]
pub struct Replay {
    day: Held,
    memory: Memory,
    sizes: Sizes,
}

// The bytes of a file, if it can be read.
fn read_file(rt: &HostRuntime, path: &[u8]) -> anyhow::Result<Option<Vec<u8>>> {
    let Ok(path) = std::str::from_utf8(path) else {
        return Ok(None);
    };
    match fs::read(rt, path) {
        Ok(bytes) => Ok(Some(bytes)),
        Err(error) if error.kind() == io::ErrorKind::OutOfMemory => Err(error.into()),
        Err(_) => Ok(None),
    }
}

// The bytes that a line brings: those of a file or of digits, or none; no answer where they cannot be read.
fn bytes_for(rt: &HostRuntime, command: &Command<'_>) -> anyhow::Result<Option<Vec<u8>>> {
    match command {
        Command::Load(path) => read_file(rt, path),
        Command::Open(digits)
        | Command::LoadBytes(digits)
        | Command::Call(Call::Enter(digits))
        | Command::Call(Call::Close(digits)) => Ok(bytes_of(rt.alloc(), digits)?),
        _ => Ok(Some(Vec::new(rt.alloc()))),
    }
}

// The step of a history that a call is. They are two, as a script is read before it is run.
fn step_of<'a>(call: &'a Call<'a>, bytes: &'a [u8]) -> Step<'a, Rule> {
    match call {
        Call::Enter(_) => Step::Enter(bytes),
        Call::Close(_) => Step::Close(bytes),
        Call::Correct(reading) => Step::Correct(*reading),
        Call::Settle(rule) => Step::Settle(rule),
        Call::Sheet { hour, rule } => Step::Sheet { hour: *hour, rule },
        Call::Issue => Step::Issue,
        Call::Statement(issue) => Step::Statement(*issue),
        Call::Reopen => Step::Reopen,
    }
}

impl Replay {
    pub fn new(heap: Global) -> Result<Replay, AllocError> {
        Ok(Replay {
            day: Held::none(),
            memory: Memory::new(heap)?,
            sizes: FIRST_SIZES,
        })
    }

    // Begins another day in place of the one before.
    fn begin<W: Write>(&mut self, start: &Begin<'_>, out: &mut W) -> anyhow::Result<()> {
        self.day.clear();
        self.memory.resize(self.sizes)?;
        let memory = &mut self.memory;
        match begin(
            start,
            &mut memory.book,
            &mut memory.table,
            memory.ledger.as_mut_slice(),
        ) {
            Ok(day) => {
                self.day.put(day);
                Ok(out.write_all(b"OK\n")?)
            }
            Err(fault) => print_refused(out, &fault),
        }
    }

    // Makes a call on the day; no answer where it is not taken.
    fn call(&mut self, step: &Step<'_, Rule>) -> Option<Answer> {
        let day = self.day.take()?;
        let memory = &mut self.memory;
        match advance(
            day,
            step,
            &mut memory.book,
            &mut memory.table,
            memory.ledger.as_mut_slice(),
            &mut memory.page,
            memory.buffer.as_mut_slice(),
        ) {
            // In steps: the borrow checker does not cover a pattern that reaches further in here.
            Ok(made) => {
                let (day, answer) = made;
                self.day.put(day);
                Some(answer)
            }
            Err(not_taken) => {
                let NotTaken(day) = not_taken;
                self.day.put(day);
                None
            }
        }
    }

    // The sheet on the page.
    fn print_sheet<W: Write>(&self, out: &mut W) -> anyhow::Result<()> {
        let mut text = [0u8; SHEET_ROOM];
        let length = put_sheet(&mut text, &self.memory.page);
        Ok(out.write_all(&text[..length])?)
    }

    // The text of a statement, which stands at the front of the buffer.
    fn print_statement<W: Write>(&self, length: usize, out: &mut W) -> anyhow::Result<()> {
        let buffer = self.memory.buffer.as_slice();
        Ok(out.write_all(&buffer[..length.min(buffer.len())])?)
    }

    // Makes a call on the day and prints what it answered.
    fn step<W: Write>(&mut self, step: &Step<'_, Rule>, out: &mut W) -> anyhow::Result<()> {
        match self.call(step) {
            None => Ok(out.write_all(b"NOT TAKEN\n")?),
            Some(Ok(Outcome::Done)) => match step {
                Step::Sheet { .. } => self.print_sheet(out),
                _ => Ok(out.write_all(b"OK\n")?),
            },
            Some(Ok(Outcome::Added(count))) => Ok(writeln!(out, "OK {count}")?),
            Some(Ok(Outcome::Written(length))) => self.print_statement(length, out),
            Some(Err(fault)) => print_refused(out, &fault),
        }
    }

    // Does what a line asks for, with the bytes that it brings, and prints the answer.
    fn obey<'a, W: Write>(
        &mut self,
        command: &'a Command<'a>,
        bytes: &'a [u8],
        out: &mut W,
    ) -> anyhow::Result<()> {
        match command {
            Command::Ledger(entries) => {
                self.sizes.ledger = *entries;
                Ok(out.write_all(b"OK\n")?)
            }
            Command::Buffer(length) => {
                self.sizes.buffer = *length;
                Ok(out.write_all(b"OK\n")?)
            }
            Command::Open(_) => self.begin(&Begin::Open(bytes), out),
            Command::Load(_) | Command::LoadBytes(_) => self.begin(&Begin::Load(bytes), out),
            Command::Call(call) => self.step(&step_of(call, bytes), out),
        }
    }

    // Runs a line that has words.
    fn run_words<W: Write>(
        &mut self,
        rt: &HostRuntime,
        words: &[&[u8]],
        out: &mut W,
    ) -> anyhow::Result<()> {
        if let Some(command) = command_of(words)
            && let Some(bytes) = bytes_for(rt, &command)?
        {
            self.obey(&command, bytes.as_slice(), out)
        } else {
            Ok(out.write_all(b"NOT A CALL\n")?)
        }
    }

    // Runs a line and prints it, with its answer; a line without words is passed over.
    pub fn run_line<W: Write>(
        &mut self,
        rt: &HostRuntime,
        line: &[u8],
        out: &mut W,
    ) -> anyhow::Result<()> {
        let words = words_of(rt.alloc(), line)?;
        if words.is_empty() {
            return Ok(());
        }
        print_line(out, line)?;
        self.run_words(rt, words.as_slice(), out)
    }
}
