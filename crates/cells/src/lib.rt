// The hall in cells: levels, cell codes and boxes, and the table of refusals that every call answers by.

#![tactic(auto)]

pub mod boxes;
pub mod hall;
pub mod levels;
pub mod refusal;
pub mod row;
pub mod shown;
