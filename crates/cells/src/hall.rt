// The hall in cells: how many levels it has, which cells it has, and each cell's code.
ghost use Rattle.std.specs.Prelude.{◌≡◌, ◌+◌, ◌*◌, ◌^◌, ◌<◌, ◌≤◌, true, not, IfOk, OnOk, nat_le};
ghost use Rattle.cells.specs.Refusals.{answer, gives, refuse_if};
ghost use Rattle.cells.specs.Hall.{bit, levels_fit, side, volume, cell_fits, code_of, axis, cell_at, CodeBits};
ghost use Rattle.cells.specs.Levels.{LevelsOf};
ghost use Rattle.cells.specs.SubCubes.{InSubCubes};

use crate::levels::{Levels, MOST_LEVELS};
use crate::refusal::Refusal;

// A cell by its three coordinates, counted from 0. Nothing says that it lies in the hall.
#[derive(Clone, Copy, PartialEq, Eq, Debug)]
pub struct Cell {
    pub x: u32,
    pub y: u32,
    pub z: u32,
}

impl TryFrom<u32> for Levels {
    type Error = Refusal;

    ghost try_from_gives = { LevelsOf };

    fn try_from(count: u32) -> Result<Levels, Refusal> {
        if count == 0 || count > MOST_LEVELS {
            return Err(Refusal::Levels);
        }
        Ok(Levels { count })
    }
}

impl Levels {
    // The number of cells along each axis.
    pub fn side(self) -> u32
        ensures { result ≡ side self.count }
    {
        1 << self.count
    }

    // The number of cells, which is the number of codes.
    pub fn volume(self) -> u32
        ensures { result ≡ volume self.count }
    {
        1 << (3 * self.count)
    }

    // Whether the cell lies in the hall: every coordinate is below the side.
    pub fn holds(self, cell: Cell) -> bool
        ensures { result ≡ cell_fits self.count cell }
    {
        let side = self.side();
        cell.x < side && cell.y < side && cell.z < side
    }

    // The bits of the three coordinates taken in turn, x lowest.
    fn interleave(self, cell: Cell) -> u32
        ensures value { result ≡ code_of self.count cell }
        ensures below { result < volume self.count }
        ensures bits { cell_fits self.count cell ≡ true → CodeBits cell result }
        ensures back { cell_fits self.count cell ≡ true → cell_at self.count result ≡ cell }
    {
        let Cell { x, y, z } = cell;
        (0..self.count)
            .map(
                |j|
                    requires { j < 10 }
                    ensures { result ≡ (bit j x + 2 * bit j y + 4 * bit j z) * 8 ^ j }
                { ((x >> j) % 2 + 2 * ((y >> j) % 2) + 4 * ((z >> j) % 2)) << (3 * j) },
            )
            .sum()
    }

    // The code of a cell of the hall.
    pub fn code_of(self, cell: Cell) -> Result<u32, Refusal>
        ensures value { answer result ≡ refuse_if (not (cell_fits self.count cell)) 3 (gives (code_of self.count cell)) }
        ensures bits { IfOk result (λ n. CodeBits cell n) }
        ensures below { IfOk result (λ n. n < volume self.count) }
        ensures back { IfOk result (λ n. cell_at self.count n ≡ cell) }
    {
        if !self.holds(cell) {
            return Err(Refusal::Outside);
        }
        Ok(self.interleave(cell))
    }

    // Whether a number is the code of a cell of the hall.
    pub fn check_code(self, code: u32) -> Result<(), Refusal>
        ensures { answer result ≡ refuse_if (nat_le (volume self.count) code) 3 (gives tt) }
    {
        if code >= self.volume() {
            return Err(Refusal::Outside);
        }
        Ok(())
    }

    // One coordinate of a code's cell: every third bit of the code, from the given one on.
    fn coordinate(self, first: u32, code: u32) -> u32
        requires { first < 3 }
        ensures { result ≡ axis self.count first code }
    {
        (0..self.count)
            .map(
                |j|
                    requires { (j < 10) × (first < 3) }
                    ensures { result ≡ bit (3 * j + first) code * 2 ^ j }
                { ((code >> (3 * j + first)) % 2) << j },
            )
            .sum()
    }

    // The three coordinates that the bits of a code belong to.
    fn deinterleave(self, code: u32) -> Cell
        ensures value { result ≡ cell_at self.count code }
        ensures inside { cell_fits self.count result ≡ true }
        ensures back { code < volume self.count → code_of self.count result ≡ code }
        ensures sub_cubes { InSubCubes code }
    {
        let x = self.coordinate(0, code);
        let y = self.coordinate(1, code);
        let z = self.coordinate(2, code);
        Cell { x, y, z }
    }

    // The cell of a code of the hall.
    pub fn cell_of(self, code: u32) -> Result<Cell, Refusal>
        ensures value { answer result ≡ refuse_if (nat_le (volume self.count) code) 3 (gives (cell_at self.count code)) }
        ensures inside { IfOk result (λ c. cell_fits self.count c ≡ true) }
        ensures back { IfOk result (λ c. code_of self.count c ≡ code) }
        ensures sub_cubes { OnOk result (InSubCubes code) }
    {
        self.check_code(code)?;
        Ok(self.deinterleave(code))
    }
}

// The code of a cell of a hall of so many levels. It, `cell_of` and `box_of` stay for callers with a plain number of levels.
pub fn code_of(levels: u32, cell: Cell) -> Result<u32, Refusal>
    ensures value { answer result ≡ refuse_if (not (levels_fit levels)) 1 (refuse_if (not (cell_fits levels cell)) 3 (gives (code_of levels cell))) }
    ensures bits { IfOk result (λ n. CodeBits cell n) }
    ensures below { IfOk result (λ n. n < 8 ^ levels) }
    ensures back { IfOk result (λ n. cell_at levels n ≡ cell) }
{
    Levels::try_from(levels)?.code_of(cell)
}

// The cell of a code of a hall of so many levels.
pub fn cell_of(levels: u32, code: u32) -> Result<Cell, Refusal>
    ensures value { answer result ≡ refuse_if (not (levels_fit levels)) 1 (refuse_if (nat_le (8 ^ levels) code) 3 (gives (cell_at levels code))) }
    ensures inside { IfOk result (λ c. cell_fits levels c ≡ true) }
    ensures back { IfOk result (λ c. code_of levels c ≡ code) }
    ensures sub_cubes { OnOk result (InSubCubes code) }
{
    Levels::try_from(levels)?.cell_of(code)
}
