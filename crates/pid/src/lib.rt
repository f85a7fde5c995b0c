// The plain law of one loop, one module for each subject of 01. Each has its definitions in specs/ under the same name.
// "The plain law knows no numbers."
#![tactic(auto)]

pub mod law;
mod numbers;
pub mod play;
mod sample;
