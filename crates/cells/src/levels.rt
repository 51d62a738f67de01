// The levels of a hall.
ghost use Rattle.std.specs.Prelude.{◌≤◌};
ghost use Rattle.cells.specs.Hall.{most_levels};

pub const MOST_LEVELS: u32 = 10;

// How many levels a hall has, 1 to 10.
#[derive(Clone, Copy, PartialEq, Eq, Debug)]
pub struct Levels {
    pub count: u32,
    ghost low: { 1 ≤ count },
    ghost high: { count ≤ most_levels },
}
