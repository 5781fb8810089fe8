// The end of a day's records: which of them lack a price, and whether the book may be closed.
#![tactic(auto)]

pub mod close;
pub mod prices;
