// The text of an issue's statement.
#![tactic(auto)]

pub mod issued;
pub mod line;
pub mod side;
