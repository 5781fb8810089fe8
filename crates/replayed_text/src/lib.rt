// From the bytes of a day file to the text that is printed of it, by one replayed history of calls.
#![tactic(auto)]

pub mod print;
