// The two letters that a record begins with, and the length that they give it.
ghost use Rattle.std.specs.Prelude.{◌≡◌, ◌≤◌, slice_index};
ghost use Rattle.std.specs.Option.{ok_or};
ghost use Rattle.dayfile.specs.Marks.{mark_at_front, mark_length, mark_letters, mark_of};

#[derive(Clone, Copy, PartialEq, Eq, Debug)]
pub enum Mark {
    Day,
    Price,
    Position,
    Interconnection,
    Reserve,
    Failure,
    Fine,
    End,
}

// Two letters that are no mark's. An error of its own for each `TryFrom`, as in Rust.
#[derive(Clone, Copy, PartialEq, Eq, Debug)]
pub struct UnknownMark(pub [u8; 2]);

// The mark with these letters, if there is one.
impl TryFrom<[u8; 2]> for Mark {
    type Error = UnknownMark;

    ghost try_from_gives = { λ letters mark. mark ≡ ok_or (mark_of (slice_index letters 0) (slice_index letters 1)) (record { 0 = letters }) };

    fn try_from(letters: [u8; 2]) -> Result<Mark, UnknownMark> {
        match letters {
            [b'D', b'Y'] => Ok(Mark::Day),
            [b'P', b'N'] => Ok(Mark::Price),
            [b'E', b'N'] => Ok(Mark::Position),
            [b'I', b'X'] => Ok(Mark::Interconnection),
            [b'R', b'S'] => Ok(Mark::Reserve),
            [b'F', b'T'] => Ok(Mark::Failure),
            [b'M', b'U'] => Ok(Mark::Fine),
            [b'Z', b'Z'] => Ok(Mark::End),
            _ => Err(UnknownMark(letters)),
        }
    }
}

// The letters of the mark.
impl From<Mark> for [u8; 2] {
    ghost from_gives = { λ mark letters. letters ≡ mark_letters mark };

    fn from(mark: Mark) -> [u8; 2] {
        match mark {
            Mark::Day => *b"DY",
            Mark::Price => *b"PN",
            Mark::Position => *b"EN",
            Mark::Interconnection => *b"IX",
            Mark::Reserve => *b"RS",
            Mark::Failure => *b"FT",
            Mark::Fine => *b"MU",
            Mark::End => *b"ZZ",
        }
    }
}

impl Mark {
    // The mark that the bytes begin with, if they begin with one.
    pub fn at_front(bytes: &[u8]) -> Option<Mark>
        ensures { result ≡ mark_at_front bytes.now }
    {
        let (letters, _) = bytes.split_first_chunk()?;
        Mark::try_from(*letters).ok()
    }

    // The length of a record with this mark, the mark included.
    pub fn length(self) -> usize
        ensures value { result ≡ mark_length self }
        ensures bound { 4 ≤ result }
    {
        match self {
            Mark::Day => 10,
            Mark::Price => 12,
            Mark::Position => 14,
            Mark::Interconnection => 26,
            Mark::Reserve => 22,
            Mark::Failure => 4,
            Mark::Fine => 15,
            Mark::End => 4,
        }
    }
}
