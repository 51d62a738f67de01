// Closing the levels of a map: the record of a sub-cube that gets no more cells goes into the pool.
ghost use Rattle.std.specs.Prelude.{◌≡◌, ◌<◌, ◌≤◌};
ghost use Rattle.voxels.specs.Growing.{Grown};
ghost use Rattle.voxels.specs.Stages.{Numbered, Stepped};
ghost use Rattle.voxels.specs.Closes.{ClosedRows};

use crate::child::{Child, sub_cube};
use crate::row::{OpenRow, ROWS};
use cells::levels::Levels;
use cells::refusal::Refusal;
use nodes::node::Node;
use nodes::pool::NodePool;
use nodes::tail::find;

// The lowest number of an equal record in the pool. Where there is none the record is added, which a full pool refuses.
fn number_of<P: NodePool>(pool: &mut P, node: &Node) -> Result<u16, Refusal>
    ensures grown { Grown P.NodePool pool.old pool.new }
    ensures answers { Numbered (P.NodePool.nodes pool.old) (P.NodePool.capacity pool.old) node.now (P.NodePool.nodes pool.new) result }
{
    if let Some(number) = find(pool, node, 0) {
        return Ok(number as u16);
    }
    let number = pool.add(*node)?;
    Ok(number as u16)
}

// Closes the last code's sub-cube of level r + 1: its record goes into the pool, its row becomes empty,
// and the row above, if there is one, takes the record's number as a link.
fn close_level<P: NodePool>(
    pool: &mut P,
    rows: &mut [OpenRow; ROWS],
    levels: Levels,
    r: u32,
    last: u32,
) -> Result<(), Refusal>
    requires { r < levels.count }
    ensures grown { Grown P.NodePool pool.old pool.new }
    ensures steps { Stepped levels.count last r (P.NodePool.nodes pool.old) (P.NodePool.capacity pool.old) rows.old (P.NodePool.nodes pool.new) rows.new result }
{
    let at = r as usize;
    let row = rows[at];
    let number = number_of(pool, &row.node)?;
    rows[at] = OpenRow::empty(r as u8 + 1);
    if r + 1 < levels.count {
        let parent = &mut rows[at + 1];
        parent.take_child(Child::of(r + 1, last), number, row.count);
    }
    Ok(())
}

// The rows after the last code's sub-cube of each level that ends below the next code is closed, the lower level first.
// A full pool refuses, and is as it was.
pub(crate) fn closed_rows<P: NodePool>(
    pool: &mut P,
    rows: [OpenRow; ROWS],
    levels: Levels,
    last: u32,
    code: u32,
) -> Result<[OpenRow; ROWS], Refusal>
    requires { last < code }
    ensures grown { Grown P.NodePool pool.old pool.new }
    ensures closed { ClosedRows levels.count last code (P.NodePool.nodes pool.old) (P.NodePool.memory pool.old) (P.NodePool.capacity pool.old) rows (P.NodePool.nodes pool.new) (P.NodePool.memory pool.new) result }
{
    let before = pool.count();
    let mut left = rows;
    // a loop over the levels' numbers: each round empties row r and fills row r + 1
    for r in 0..levels.count {
        if sub_cube(r + 1, last) == sub_cube(r + 1, code) {
            return Ok(left);
        }
        // plainer than a `map_err` whose closure cuts the pool
        if let Err(refusal) = close_level(pool, &mut left, levels, r, last) {
            pool.cut(before);
            return Err(refusal);
        }
    }
    Ok(left)
}
