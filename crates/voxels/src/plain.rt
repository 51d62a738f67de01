// The plain state of a map.
ghost use Rattle.std.specs.Prelude.{◌≡◌, true};
ghost use Rattle.voxels.specs.Phases.{last_in, levels_in};

use crate::phase::Phase;
use crate::row::{OpenRow, ROWS};

// The levels, the phase, the last accepted code, and an open row for each level.
#[derive(Clone, Copy, PartialEq, Eq, Debug)]
pub(crate) struct Plain {
    pub(crate) levels: u32,
    pub(crate) phase: Phase,
    pub(crate) last: Option<u32>,
    pub(crate) rows: [OpenRow; ROWS],
    ghost fit: { levels_in phase levels ≡ true },
    ghost inside: { last_in last levels ≡ true },
}
