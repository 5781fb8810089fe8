// The ledger of notes: when its notes are sound, and what an issue adds to them.
#![tactic(auto)]

pub mod issue;
pub mod note;
pub mod sound;
