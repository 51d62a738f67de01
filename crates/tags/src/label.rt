// Labels: the number plates of places.
ghost use Rattle.std.specs.Prelude.{◌≤◌};
ghost use Rattle.tags.specs.Bounds.{first_plate, last_plate};

pub mod kind;

// The lowest number of a plate.
pub const FIRST_PLATE: u32 = 1;

// The highest number of a plate.
pub const LAST_PLATE: u32 = 65535;

// The number of a plate. Labels and speeds are two types: one over both bounds would give plates an order.
#[derive(Clone, Copy, PartialEq, Eq, Debug)]
pub struct Label {
    plate: u16,
    ghost some: { first_plate ≤ plate },
    ghost last: { plate ≤ last_plate },
}
