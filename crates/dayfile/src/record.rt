// The six kinds of record that a book holds, as values.
// System, unit and kind are plain numbers: a record with an unknown one is decoded, and refused by the book in its turn.
ghost use Rattle.std.specs.Prelude.{◌≡◌};
ghost use Rattle.std.specs.Option.{ok_or};
ghost use Rattle.dayfile.specs.Classes.{class_number, class_of};

// What a position stands for: energy that is put into the system (generation, import) or taken out of it (load, export).
#[derive(Clone, Copy, PartialEq, Eq, Debug)]
pub enum Class {
    Generation = 1,
    Load = 2,
    Import = 3,
    Export = 4,
}

// A number that no class has. An error of its own for each `TryFrom`, as in Rust.
#[derive(Clone, Copy, PartialEq, Eq, Debug)]
pub struct UnknownClass(pub u8);

// The number that the day file has for the class.
impl From<Class> for u8 {
    ghost from_gives = { λ class number. number ≡ class_number class };

    fn from(class: Class) -> u8 {
        class as u8
    }
}

// The class with this number, if there is one.
impl TryFrom<u8> for Class {
    type Error = UnknownClass;

    ghost try_from_gives = { λ number class. class ≡ ok_or (class_of number) (record { 0 = number }) };

    fn try_from(number: u8) -> Result<Class, UnknownClass> {
        match number {
            1 => Ok(Class::Generation),
            2 => Ok(Class::Load),
            3 => Ok(Class::Import),
            4 => Ok(Class::Export),
            _ => Err(UnknownClass(number)),
        }
    }
}

// The prices of a node in an hour, in centavos per MWh.
#[derive(Clone, Copy, PartialEq, Eq, Debug)]
pub struct Price {
    pub node: u8,
    pub hour: u8,
    pub day_ahead: i32,
    pub real_time: i32,
}

// An account's energy at a node in an hour, in kWh: what was sold or bought the day before, and what was then
// metered (generation, load) or scheduled (import, export).
#[derive(Clone, Copy, PartialEq, Eq, Debug)]
pub struct Position {
    pub account: u8,
    pub node: u8,
    pub hour: u8,
    pub class: Class,
    pub day_ahead: u32,
    pub real_time: u32,
}

// The exchange over an interconnection with an external system in an hour, in kWh, and the price of its imbalance
// in centavos per MWh.
#[derive(Clone, Copy, PartialEq, Eq, Debug)]
pub struct Interconnection {
    pub interconnection: u8,
    pub system: u8,
    pub node: u8,
    pub hour: u8,
    pub day_ahead_export: u32,
    pub day_ahead_import: u32,
    pub real_time_export: u32,
    pub real_time_import: u32,
    pub imbalance_price: i32,
}

// A unit's reserve of one kind in an hour: price in centavos per MWh and quantity in kWh, the day before and in real time.
#[derive(Clone, Copy, PartialEq, Eq, Debug)]
pub struct Reserve {
    pub account: u8,
    pub unit: u8,
    pub kind: u8,
    pub hour: u8,
    pub day_ahead_price: u32,
    pub day_ahead: u32,
    pub real_time_price: u32,
    pub real_time: u32,
}

// A unit and kind of reserve that failed the minimum standard in this month.
#[derive(Clone, Copy, PartialEq, Eq, Debug)]
pub struct Failure {
    pub unit: u8,
    pub kind: u8,
}

// A fine on an account, in centavos.
#[derive(Clone, Copy, PartialEq, Eq, Debug)]
pub struct Fine {
    pub identifier: u32,
    pub account: u8,
    pub centavos: u64,
}

// A record that a book takes.
#[derive(Clone, Copy, PartialEq, Eq, Debug)]
pub enum Record {
    Price(Price),
    Position(Position),
    Interconnection(Interconnection),
    Reserve(Reserve),
    Failure(Failure),
    Fine(Fine),
}
