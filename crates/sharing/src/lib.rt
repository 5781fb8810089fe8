// Sharing an amount of mils (thousandths of a centavo) over the weights of those who bear or receive it.
// It knows nothing of days, accounts or prices.
#![tactic(auto)]

pub mod choice;
mod division;
pub mod largest_remainder;
mod laying;
pub mod limits;
pub mod rule;
pub mod running;
pub mod signed;
