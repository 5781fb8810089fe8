// Hands out the records of a file one by one.
ghost use Rattle.std.specs.Prelude.{◌≡◌, ◌+◌, ◌<◌, ◌≤◌, length, IfOk, OnOk, ◌==◌};
ghost use Rattle.cutting.specs.Cuts.{cut_at, first_record, lent, past};

use dayfile::mark::Mark;
use faults::fault::Fault;
use faults::refusal::Refusal;

// A file, and the offset at which its next record begins: never past the end.
#[derive(Drop)]
pub struct Reader<'a> {
    file: &'a [u8],
    offset: usize,
    ghost inside: { offset ≤ length file.now },
}

// The record that the bytes begin with.
fn first_record(bytes: &[u8]) -> Result<&[u8], Refusal>
    ensures value { lent result ≡ first_record bytes.now }
    ensures within { IfOk result (λ part. (4 ≤ length part.now) × (length part.now ≤ length bytes.now)) }
{
    let mark = Mark::at_front(bytes).ok_or(Refusal::UnknownMark)?;
    bytes.get(..mark.length()).ok_or(Refusal::WrongLength)
}

// The record that begins at the offset.
fn record_at(file: &[u8], offset: usize) -> Result<&[u8], Fault>
    requires { offset ≤ length file.now }
    ensures value { lent result ≡ cut_at file.now offset }
    ensures within { IfOk result (λ part. (4 ≤ length part.now) × (offset + length part.now ≤ length file.now)) }
{
    first_record(&file[offset..]).map_err(|refusal| Fault::plain(refusal).at_offset(offset))
}

impl<'a> Reader<'a> {
    // At the file's first byte.
    pub fn new(file: &'a [u8]) -> Reader<'a>
        ensures file { result.file.now ≡ file.now }
        ensures start { result.offset ≡ 0 }
    {
        Reader { file, offset: 0 }
    }

    pub fn offset(&self) -> usize
        ensures { result ≡ self.now.offset }
    {
        self.offset
    }

    // Was the whole file handed out?
    pub fn at_end(&self) -> bool
        ensures { result ≡ (self.now.offset == length self.now.file.now) }
    {
        self.offset == self.file.len()
    }

    // The next record's bytes; the offset moves past them. A refusal moves nothing.
    // Not an Iterator's next: that one would hand out the refusal without end.
    pub fn next(&mut self) -> Result<&'a [u8], Fault>
        ensures file { self.new.file.now ≡ self.old.file.now }
        ensures part { lent result ≡ cut_at self.old.file.now self.old.offset }
        ensures offset { self.new.offset ≡ past self.old.offset (cut_at self.old.file.now self.old.offset) }
        ensures moves { OnOk result (self.old.offset < self.new.offset) }
    {
        let part = record_at(self.file, self.offset)?;
        self.offset += part.len();
        Ok(part)
    }
}
