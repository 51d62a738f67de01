// A visit to a sub-cube, on the way from the root down to the cells of a box.
ghost use Rattle.std.specs.Prelude.{◌≡◌, ℕ, ◌+◌, ◌-◌, ◌*◌, ◌/◌, ◌%◌, ◌^◌, ◌<◌, ◌≤◌, true, length, IfSome, MatchOption};
ghost use Rattle.cells.specs.Hall.{cell_fits};
ghost use Rattle.cells.specs.Boxes.{box_holds};
ghost use Rattle.cells.specs.declared.boxes.CellBox.{CellBox};
ghost use Rattle.voxels.specs.Visiting.{shrunk, shrunk_box, child_place, Near, Ready, Visits, Nothing};

use crate::child::Child;
use crate::list::{Branch, HallList};
use cells::boxes::CellBox;
use cells::hall::Cell;
use nodes::pool::NodePool;

// A sub-cube by its level and its place, counted along each axis in sub-cubes of its level; its record,
// and the offsets on the path to it added up.
#[derive(Clone, Copy, PartialEq, Eq, Debug)]
pub(crate) struct Visit {
    pub(crate) level: u32,
    pub(crate) at: Cell,
    pub(crate) node: usize,
    pub(crate) rank: u64,
}

impl<P: NodePool> HallList<'_, P> {
    // The visit to the whole hall, or absent where the list has no root.
    pub(crate) fn root_visit(&self) -> Option<Visit>
        ensures ready { IfSome result (λ visit. Ready (P.NodePool.nodes self.now.pool.now) visit × (visit.level ≡ self.now.levels.count)) }
        ensures visits { (bounds : CellBox) → cell_fits self.now.levels.count bounds.low ≡ true → MatchOption result (Nothing self.now.levels.count (P.NodePool.nodes self.now.pool.now) bounds self.now.levels.count 0) (λ visit. Visits self.now.levels.count (P.NodePool.nodes self.now.pool.now) bounds 0 visit) }
    {
        let node = self.root()?;
        Some(Visit {
            level: self.levels.count,
            at: Cell { x: 0, y: 0, z: 0 },
            node,
            rank: 0,
        })
    }
}

// The place of the sub-cube of level k that a cell lies in.
fn place_of(k: u32, cell: Cell) -> Cell
    requires { k ≤ 10 }
    ensures { result ≡ shrunk k cell }
{
    Cell {
        x: cell.x >> k,
        y: cell.y >> k,
        z: cell.z >> k,
    }
}

// Whether the sub-cube of level k at a place has cells of the box.
fn meets(bounds: &CellBox, k: u32, at: Cell) -> bool
    requires { k ≤ 10 }
    ensures { result ≡ box_holds (shrunk_box k bounds.now) at }
{
    let low = place_of(k, bounds.low);
    let high = place_of(k, bounds.high);
    CellBox { low, high }.holds(at)
}

// The place of a child, one level below.
fn child_place(at: Cell, child: Child) -> Cell
    requires { Near at }
    ensures { result ≡ child_place at child.i }
{
    let i = child.i as u32;
    Cell {
        x: 2 * at.x + i % 2,
        y: 2 * at.y + i / 2 % 2,
        z: 2 * at.z + i / 4,
    }
}

// The visit to a child, or absent where the child has no occupied cell of the box.
pub(crate) fn child_visit<P: NodePool>(
    pool: &P,
    bounds: &CellBox,
    visit: Visit,
    child: Child,
) -> Option<Visit>
    requires ready { Ready (P.NodePool.nodes pool.now) visit }
    requires above { 0 < visit.level }
    requires near { Near bounds.now.high }
    ensures ready { IfSome result (λ next. Ready (P.NodePool.nodes pool.now) next × (next.level + 1 ≡ visit.level)) }
    ensures visits { (L s : ℕ) → Visits L (P.NodePool.nodes pool.now) bounds.now s visit → MatchOption result (Nothing L (P.NodePool.nodes pool.now) bounds.now (visit.level - 1) (8 * s + child.i)) (λ next. Visits L (P.NodePool.nodes pool.now) bounds.now (8 * s + child.i) next) }
{
    let level = visit.level - 1;
    let at = child_place(visit.at, child);
    if !meets(bounds, level, at) {
        return None;
    }
    let branch = Branch {
        pool,
        below: level,
        n: visit.node,
    };
    let taken = branch.step_to(child)?;
    Some(Visit {
        level,
        at,
        node: taken.next,
        rank: visit.rank + u64::from(taken.offset),
    })
}
