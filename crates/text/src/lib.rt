// Text in bytes, written into memory that a caller lends.
#![tactic(auto)]

pub mod refused;
pub mod write;
