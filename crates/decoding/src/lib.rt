// From the bytes of a record to what they say.
#![tactic(auto)]

pub mod decode;
mod fields;
