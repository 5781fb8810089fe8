// What a day charges beside its hours: penalties and fines.
#![tactic(auto)]

pub mod penalties;
