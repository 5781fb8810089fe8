// What the records of a day come to.
#![tactic(auto)]

pub mod purchases;
pub mod scope;
pub mod sums;
