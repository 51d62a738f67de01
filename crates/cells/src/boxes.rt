// Boxes of cells, by two corners that both belong to the box.
ghost use Rattle.std.specs.Prelude.{◌≡◌, not, ◌&&◌};
ghost use Rattle.cells.specs.Refusals.{answer, gives, refuse_if};
ghost use Rattle.cells.specs.Hall.{levels_fit, cell_fits};
ghost use Rattle.cells.specs.Boxes.{not_above, box_holds};

use crate::hall::Cell;
use crate::levels::Levels;
use crate::refusal::Refusal;

#[derive(Clone, Copy, PartialEq, Eq, Debug)]
pub struct CellBox {
    pub low: Cell,
    pub high: Cell,
}

impl Levels {
    // A box of the hall from its low and its high corner.
    pub fn box_of(self, low: Cell, high: Cell) -> Result<CellBox, Refusal>
        ensures { answer result ≡ refuse_if (not (cell_fits self.count low && cell_fits self.count high)) 3 (refuse_if (not (not_above low high)) 8 (gives (record { low = low; high = high }))) }
    {
        if !self.holds(low) || !self.holds(high) {
            return Err(Refusal::Outside);
        }
        if low.x > high.x || low.y > high.y || low.z > high.z {
            return Err(Refusal::CornersCrossed);
        }
        Ok(CellBox { low, high })
    }
}

// A box of a hall of so many levels.
pub fn box_of(levels: u32, low: Cell, high: Cell) -> Result<CellBox, Refusal>
    ensures { answer result ≡ refuse_if (not (levels_fit levels)) 1 (refuse_if (not (cell_fits levels low && cell_fits levels high)) 3 (refuse_if (not (not_above low high)) 8 (gives (record { low = low; high = high })))) }
{
    Levels::try_from(levels)?.box_of(low, high)
}

impl CellBox {
    // Whether the cell lies in the box.
    pub fn holds(&self, cell: Cell) -> bool
        ensures { result ≡ box_holds self.now cell }
    {
        self.low.x <= cell.x
            && cell.x <= self.high.x
            && self.low.y <= cell.y
            && cell.y <= self.high.y
            && self.low.z <= cell.z
            && cell.z <= self.high.z
    }
}
