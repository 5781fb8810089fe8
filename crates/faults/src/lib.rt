// Why a call is refused, and where: the one vocabulary of refusals that every layer answers in.
#![tactic(auto)]

pub mod fault;
pub mod refusal;
