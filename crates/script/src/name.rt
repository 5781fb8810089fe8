// The names that the lines of a script begin with.
ghost use Rattle.std.specs.Prelude.{◌≡◌, codes};
ghost use Rattle.std.specs.Str.{bytes_eq};
ghost use Rattle.script.specs.Names.{name_of};

// Apart from the commands: what a name asks for is told by its arguments too.
#[derive(Clone, Copy)]
pub enum Name {
    Ledger,
    Buffer,
    Open,
    Load,
    LoadBytes,
    Enter,
    Close,
    Correct,
    Settle,
    Sheet,
    Issue,
    Statement,
    Reopen,
}

// Apart from the match, in which the arm of this text would need a proof by hand.
fn is_load_bytes(word: &[u8]) -> bool
    ensures { result ≡ bytes_eq word.now (codes "load-bytes") }
{
    word == b"load-bytes".as_slice()
}

// The name that a word is, if it is one.
pub fn name_of(word: &[u8]) -> Option<Name>
    ensures { result ≡ name_of word.now }
{
    if is_load_bytes(word) {
        return Some(Name::LoadBytes);
    }
    match word {
        b"ledger" => Some(Name::Ledger),
        b"buffer" => Some(Name::Buffer),
        b"open" => Some(Name::Open),
        b"load" => Some(Name::Load),
        b"enter" => Some(Name::Enter),
        b"close" => Some(Name::Close),
        b"correct" => Some(Name::Correct),
        b"settle" => Some(Name::Settle),
        b"sheet" => Some(Name::Sheet),
        b"issue" => Some(Name::Issue),
        b"statement" => Some(Name::Statement),
        b"reopen" => Some(Name::Reopen),
        _ => None,
    }
}
