// What an answer says to a caller in C: its number, its place, and its values.
#![tactic(auto)]

pub mod findings;
pub mod happening;
pub mod numbers;
pub mod refusals;
