// One word of a text: where it ends, the decimals that are read of it and shown, and bytes put into a lent buffer. It knows no
// settings. Each module has its definitions in specs/ under the same name.
#![tactic(auto)]

pub mod buffer;
pub mod decimal;
pub mod end;
pub mod number;
