// Correcting a reading: finding its position, and putting it in the place of the one held.
#![tactic(auto)]

pub mod correct;
pub mod reading;
