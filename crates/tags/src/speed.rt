// Speed limits: how fast the unit may travel through a cell.
ghost use Rattle.std.specs.Prelude.{◌≤◌};
ghost use Rattle.tags.specs.Bounds.{top_speed};

pub mod kind;

// The highest speed limit in mm/s.
pub const TOP_SPEED: u32 = 1999;

// A speed limit in mm/s. 0 is keep out.
#[derive(Clone, Copy, PartialEq, Eq, PartialOrd, Ord, Debug)]
pub struct Speed {
    limit: u16,
    ghost low: { limit ≤ top_speed },
}
