// Lines, fields and numbers of a text file, by its bytes.

#![tactic(auto)]

pub mod number;
pub mod piece;
