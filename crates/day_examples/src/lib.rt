// The calls on a day, and histories of them, by example.
#![tactic(auto)]

#[cfg(test)]
mod damaged;
#[cfg(test)]
mod days;
#[cfg(test)]
mod histories;
