// Numbers and differences as bytes, and the room for them.
#![tactic(auto)]

pub mod classes;
pub mod differences;
pub mod numbers;
pub mod room;
