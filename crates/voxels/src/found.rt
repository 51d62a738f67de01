// What look finds at an occupied cell.

// The rank of a cell, the number of cells before it, and its tag.
#[derive(Clone, Copy, PartialEq, Eq, Debug)]
pub struct Found<K> {
    pub rank: u64,
    pub tag: K,
}
