// Node records, and the pools that hold them in lent memory.

#![tactic(auto)]

pub mod byte_pool;
pub mod format;
pub mod lent_pool;
pub mod node;
mod place;
pub mod pool;
pub mod row_pool;
pub mod tail;
#[cfg(test)]
mod tests;
