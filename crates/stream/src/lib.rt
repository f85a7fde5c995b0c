// A file in pieces, on slices: it is fed cut anywhere, each line is judged, and what is to be written comes back in a lent
// buffer. Each module has its definitions in specs/ under the same name.
#![tactic(auto)]

pub mod feed;
pub mod part;
pub mod run;
pub mod start;
