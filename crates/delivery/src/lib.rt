// Numbered delivery over the plain law: every command carries a number, and a second delivery of it writes nothing.
// Each module has its definitions in specs/ under the same name. What is remembered and the order of the numbers are the same
// for every law: they stand in the crate `memory`.
#![tactic(auto)]

pub mod numbered;
pub mod replay;
