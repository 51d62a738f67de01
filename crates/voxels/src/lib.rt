// The map of a hall and its calls.

#![tactic(auto)]

pub mod cases;
mod child;
mod close;
pub mod found;
mod judge;
mod list;
pub mod map;
pub mod phase;
mod plain;
mod ready;
mod row;
pub mod strictest;
mod sweep;
mod visit;
mod walk;
mod write;
