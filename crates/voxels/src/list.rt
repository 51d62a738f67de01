// Lists of records as the code reads them.
use cells::levels::Levels;

// A pool's list, read as that of a hall with so many levels.
#[derive_where(Clone, Copy)]
pub(crate) struct HallList<'a, P> {
    pub(crate) pool: &'a P,
    pub(crate) levels: Levels,
}

// Record n of a pool, read as one of level `below` + 1.
#[derive_where(Clone, Copy)]
pub(crate) struct Branch<'a, P> {
    pub(crate) pool: &'a P,
    pub(crate) below: u32,
    pub(crate) n: usize,
}
