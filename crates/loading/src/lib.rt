// Loading a day file into a book.
#![tactic(auto)]

pub mod load;
