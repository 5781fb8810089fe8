// What a line of a script asks for.
ghost use Rattle.std.specs.Prelude.{◌≡◌};
ghost use Rattle.script.specs.Commands.{call_of, command_of, reading, room, rule};

use crate::decimal::{byte, number};
use crate::name::{Name, name_of};
use correcting::reading::Reading;
use sharing::choice::Rule;

// The most entries of a ledger, and bytes of a buffer, that a script may ask for.
pub const MOST_ROOM: u64 = 1_000_000;

// Digits and paths are not read yet: they are words as they stand.
#[derive(Clone, Copy)]
pub enum Command<'a> {
    // Sizes from the next open or load on.
    Ledger(usize),
    Buffer(usize),
    Open(&'a [u8]),
    Load(&'a [u8]),
    LoadBytes(&'a [u8]),
    Call(Call<'a>),
}

// A call on a day. Not a `Step`: that one lends its rule.
#[derive(Clone, Copy)]
pub enum Call<'a> {
    Enter(&'a [u8]),
    Close(&'a [u8]),
    Correct(Reading),
    Settle(Rule),
    Sheet { hour: u8, rule: Rule },
    Issue,
    Statement(u8),
    Reopen,
}

fn room(word: &[u8]) -> Option<usize>
    ensures { result ≡ room word.entry }
{
    usize::try_from(number(word, MOST_ROOM)?).ok()
}

fn rule(word: &[u8]) -> Option<Rule>
    ensures { result ≡ rule word.entry }
{
    Rule::try_from(byte(word)?).ok()
}

fn reading(account: &[u8], node: &[u8], hour: &[u8], class: &[u8], kwh: &[u8]) -> Option<Reading>
    ensures { result ≡ reading account.entry node.entry hour.entry class.entry kwh.entry }
{
    Some(Reading {
        account: byte(account)?,
        node: byte(node)?,
        hour: byte(hour)?,
        class: byte(class)?,
        real_time: u32::try_from(number(kwh, u64::from(u32::MAX))?).ok()?,
    })
}

// The call on a day that a name and its arguments ask for, if they do.
fn call_of<'a>(name: Name, arguments: &[&'a [u8]]) -> Option<Call<'a>>
    ensures { result ≡ call_of name arguments.now }
{
    match (name, arguments) {
        (Name::Enter, [bytes]) => Some(Call::Enter(bytes)),
        (Name::Close, [bytes]) => Some(Call::Close(bytes)),
        (Name::Correct, [account, node, hour, class, kwh]) => {
            Some(Call::Correct(reading(account, node, hour, class, kwh)?))
        }
        (Name::Settle, [number]) => Some(Call::Settle(rule(number)?)),
        (Name::Sheet, [hour, number]) => Some(Call::Sheet {
            hour: byte(hour)?,
            rule: rule(number)?,
        }),
        (Name::Issue, []) => Some(Call::Issue),
        (Name::Statement, [issue]) => Some(Call::Statement(byte(issue)?)),
        (Name::Reopen, []) => Some(Call::Reopen),
        _ => None,
    }
}

// What the words of a line ask for; none, where they are no line of a script.
pub fn command_of<'a>(words: &[&'a [u8]]) -> Option<Command<'a>>
    ensures { result ≡ command_of words.now }
{
    let [first, arguments @ ..] = words else {
        return None;
    };
    let name = name_of(first)?;
    match (name, arguments) {
        (Name::Ledger, [entries]) => Some(Command::Ledger(room(entries)?)),
        (Name::Buffer, [length]) => Some(Command::Buffer(room(length)?)),
        (Name::Open, [bytes]) => Some(Command::Open(bytes)),
        (Name::Load, [path]) => Some(Command::Load(path)),
        (Name::LoadBytes, [bytes]) => Some(Command::LoadBytes(bytes)),
        _ => Some(Command::Call(call_of(name, arguments)?)),
    }
}
