// What one record comes to, at the price of its node and hour.
#![tactic(auto)]

pub mod market;
pub mod terms;
