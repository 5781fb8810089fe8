// Histories of a day: any calls, one after the other, and the laws that hold each time one of them ends.
#![tactic(auto)]

pub mod advance;
pub mod laws;
pub mod replay;
pub mod states;
pub mod steps;
