// What each program makes of one line of its file: the text that answers it, or the code that refuses it. It knows the loop
// and its deliveries, and no file. Each module has its definitions in specs/ under the same name.
#![tactic(auto)]

mod journal;
pub mod judge;
mod oven;
pub mod verdict;
