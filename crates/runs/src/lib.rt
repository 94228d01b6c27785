// Runs over whole files: what is read from the input, and the lines that are written.
#![tactic(auto)]

pub mod comparing;
pub mod reporting;
pub mod stimulus;
pub mod trace;
