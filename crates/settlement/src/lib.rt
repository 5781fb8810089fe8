// The sheet of an hour and the table of a day, under any sharing rule.
#![tactic(auto)]

mod adding;
mod items;
mod own;
mod priced;
pub mod settle;
mod shared;
pub mod sheet;
