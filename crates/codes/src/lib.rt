// The codes of the settlement, the parties, and the table of amounts by code and party.
#![tactic(auto)]

pub mod code;
pub mod party;
pub mod table;
