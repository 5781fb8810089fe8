// The book of a day: its heading and its records, the calls that enter them, and its soundness.
#![tactic(auto)]

pub mod book;
pub mod counts;
pub mod enter;
pub mod sound;
