// From the bytes of a day file to the text that is printed of it.
#![tactic(auto)]

mod first_issue;
pub mod print;
