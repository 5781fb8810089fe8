// From the bytes of a file to those of its records.
#![tactic(auto)]

pub mod reader;
