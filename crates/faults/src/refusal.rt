// The reasons of refusal, with the number and the layer of each.
ghost use Rattle.std.specs.Prelude.{◌≡◌};
ghost use Rattle.faults.specs.Numbers.{layer_number, refusal_layer, refusal_number};

// The layer that a refusal belongs to.
#[derive(Clone, Copy, PartialEq, Eq, Debug)]
pub enum Layer {
    File = 1,
    Book = 2,
    Settlement = 3,
    Issue = 4,
    Rule = 5,
}

// Every reason for which a call is refused, in the order in which a call asks them.
// More reasons may come: a caller asks for the number or the layer, and does not match on the cases.
#[derive(Clone, Copy, PartialEq, Eq, Debug)]
pub enum Refusal {
    // The memory handed over is not the day's, or holds what no call would have left in it.
    UnsoundMemory = 1,
    // Fewer than two bytes are left, or they are no mark.
    UnknownMark = 2,
    // The record is not as long as its mark says, or the file ends inside it.
    WrongLength = 3,
    // The mark is a known one that this call does not take.
    UnexpectedMark = 4,
    // A field lies outside its range, or the date does not exist.
    OutOfRange = 5,
    // An account, node, hour or interconnection is above the heading's count.
    AboveHeading = 6,
    // A record with this key is in the book.
    KeyTaken = 7,
    // The book has no room for another record of this kind.
    TableFull = 8,
    // The end record's count is wrong, or bytes follow it.
    WrongCount = 9,
    // A node and hour that are needed have no price.
    NoPrice = 10,
    // An hour has an amount to share and no purchases.
    NoPurchases = 11,
    // No position has the key asked for.
    NoPosition = 12,
    // The ledger has fewer free entries than there are notes to add.
    LedgerFull = 13,
    // The last issue that a day may have was made.
    NoIssueLeft = 14,
    // The text is longer than the buffer.
    BufferTooShort = 15,
    // A sharing rule was asked to share what it cannot.
    NotShareable = 16,
}

impl From<Layer> for u8 {
    ghost from_gives = { λ layer number. number ≡ layer_number layer };

    fn from(layer: Layer) -> u8 {
        layer as u8
    }
}

// The number by which the market's documents know the reason.
impl From<Refusal> for u8 {
    ghost from_gives = { λ refusal number. number ≡ refusal_number refusal };

    fn from(refusal: Refusal) -> u8 {
        refusal as u8
    }
}

impl Refusal {
    pub fn layer(self) -> Layer
        ensures { result ≡ refusal_layer self }
    {
        match self {
            Refusal::UnknownMark | Refusal::WrongLength => Layer::File,
            Refusal::NoPurchases => Layer::Settlement,
            Refusal::LedgerFull | Refusal::NoIssueLeft | Refusal::BufferTooShort => Layer::Issue,
            Refusal::NotShareable => Layer::Rule,
            Refusal::UnsoundMemory
            | Refusal::UnexpectedMark
            | Refusal::OutOfRange
            | Refusal::AboveHeading
            | Refusal::KeyTaken
            | Refusal::TableFull
            | Refusal::WrongCount
            | Refusal::NoPrice
            | Refusal::NoPosition => Layer::Book,
        }
    }
}
