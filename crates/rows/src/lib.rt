// The tables of a book: records of one kind with keys of their own, proved once for every kind.
#![tactic(auto)]

pub mod kinds;
pub mod row;
pub mod table;
