// Tags of cells: the kinds of tags, and the stores that keep their words.

#![tactic(auto)]

pub mod flat;
pub mod kind;
pub mod label;
pub mod load;
pub mod palette;
pub mod speed;
pub mod store;
#[cfg(test)]
mod tests;
