// The ten calls on a day: its states, its memory, and the order of refusals of each call.
#![tactic(auto)]

pub mod corrections;
pub mod entering;
pub mod issue_number;
pub mod issuing;
pub mod memory;
pub mod opening;
pub mod refused;
pub mod reopening;
pub mod settling;
pub mod sheets;
pub mod stage;
pub mod state;
