// The codes under which amounts are settled.
ghost use Rattle.std.specs.Prelude.{◌≡◌, ◌<◌};
ghost use Rattle.std.specs.Option.{ok_or};
ghost use Rattle.codes.specs.Codes.{basis_number, code_at, code_count, code_index, code_number, code_of, kind_number, row_of};

// A letter and a digit: A is the day-ahead settlement, B the real-time settlement, F everything else. Codes are numbered in
// their order, from 1.
#[derive(Clone, Copy, Debug, PartialEq, Eq)]
pub enum Code {
    A1 = 1,
    A2,
    A3,
    A4,
    B1,
    B2,
    B3,
    B4,
    F1,
    F2,
    F3,
    F4,
    F5,
    F6,
}

// A number that no code has. An error of its own for each `TryFrom`, as in Rust.
#[derive(Clone, Copy, Debug, PartialEq, Eq)]
pub struct UnknownCode(pub u8);

// Who is paid or charged under a code.
#[derive(Clone, Copy, Debug, PartialEq, Eq)]
pub enum PartyKind {
    Account = 1,
    ExternalSystem,
    WorkingCapitalFund,
    UniversalServiceFund,
}

// By what an amount is shared. Under `Own` nothing is shared: each party has what its own records come to.
#[derive(Clone, Copy, Debug, PartialEq, Eq)]
pub enum Basis {
    Own = 0,
    Purchases = 1,
}

#[derive(Clone, Copy, Debug, PartialEq, Eq)]
pub struct CodeRow {
    pub code: Code,
    pub letter: u8,
    pub digit: u8,
    pub party: PartyKind,
    pub basis: Basis,
}

// How many rows the table of codes has.
pub const CODE_COUNT: usize = 14;

// Every code, in the order in which sheets, tables and statements have them.
pub const CODES: [CodeRow; CODE_COUNT] = [
    CodeRow {
        code: Code::A1,
        letter: b'A',
        digit: 1,
        party: PartyKind::Account,
        basis: Basis::Own,
    },
    CodeRow {
        code: Code::A2,
        letter: b'A',
        digit: 2,
        party: PartyKind::Account,
        basis: Basis::Purchases,
    },
    CodeRow {
        code: Code::A3,
        letter: b'A',
        digit: 3,
        party: PartyKind::Account,
        basis: Basis::Own,
    },
    CodeRow {
        code: Code::A4,
        letter: b'A',
        digit: 4,
        party: PartyKind::Account,
        basis: Basis::Purchases,
    },
    CodeRow {
        code: Code::B1,
        letter: b'B',
        digit: 1,
        party: PartyKind::Account,
        basis: Basis::Own,
    },
    CodeRow {
        code: Code::B2,
        letter: b'B',
        digit: 2,
        party: PartyKind::Account,
        basis: Basis::Purchases,
    },
    CodeRow {
        code: Code::B3,
        letter: b'B',
        digit: 3,
        party: PartyKind::Account,
        basis: Basis::Own,
    },
    CodeRow {
        code: Code::B4,
        letter: b'B',
        digit: 4,
        party: PartyKind::Account,
        basis: Basis::Purchases,
    },
    CodeRow {
        code: Code::F1,
        letter: b'F',
        digit: 1,
        party: PartyKind::Account,
        basis: Basis::Purchases,
    },
    CodeRow {
        code: Code::F2,
        letter: b'F',
        digit: 2,
        party: PartyKind::ExternalSystem,
        basis: Basis::Own,
    },
    CodeRow {
        code: Code::F3,
        letter: b'F',
        digit: 3,
        party: PartyKind::Account,
        basis: Basis::Own,
    },
    CodeRow {
        code: Code::F4,
        letter: b'F',
        digit: 4,
        party: PartyKind::WorkingCapitalFund,
        basis: Basis::Own,
    },
    CodeRow {
        code: Code::F5,
        letter: b'F',
        digit: 5,
        party: PartyKind::Account,
        basis: Basis::Own,
    },
    CodeRow {
        code: Code::F6,
        letter: b'F',
        digit: 6,
        party: PartyKind::UniversalServiceFund,
        basis: Basis::Own,
    },
];

// The code at a place of the table of codes.
pub(crate) fn code_in(place: usize) -> Code
    requires { place < code_count }
    ensures { result ≡ code_at place }
{
    CODES[place].code
}

impl Code {
    // The place in the table of codes.
    pub fn index(self) -> usize
        ensures value { result ≡ code_index self }
        ensures below { result < code_count }
    {
        self as usize - 1
    }

    // Letter, digit, kind of party and basis.
    pub fn row(self) -> CodeRow
        ensures { result ≡ row_of self }
    {
        CODES[self.index()]
    }
}

impl From<Code> for u8 {
    ghost from_gives = { λ code number. number ≡ code_number code };

    fn from(code: Code) -> u8 {
        code as u8
    }
}

// The code with this number, if there is one.
impl TryFrom<u8> for Code {
    type Error = UnknownCode;

    ghost try_from_gives = { λ number r. r ≡ ok_or (code_of number) (record { 0 = number }) };

    fn try_from(number: u8) -> Result<Code, UnknownCode> {
        let unknown = UnknownCode(number);
        let place = usize::from(number).checked_sub(1).ok_or(unknown)?;
        let row = CODES.get(place).ok_or(unknown)?;
        Ok(row.code)
    }
}

impl From<PartyKind> for u8 {
    ghost from_gives = { λ kind number. number ≡ kind_number kind };

    fn from(kind: PartyKind) -> u8 {
        kind as u8
    }
}

impl From<Basis> for u8 {
    ghost from_gives = { λ basis number. number ≡ basis_number basis };

    fn from(basis: Basis) -> u8 {
        basis as u8
    }
}
