// The prices of a day by node and hour.
#![tactic(auto)]

pub mod grid;
