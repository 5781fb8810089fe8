// The day file: its heading, its marks, and its records as values.
#![tactic(auto)]

pub mod calendar;
pub mod heading;
pub mod mark;
pub mod record;
