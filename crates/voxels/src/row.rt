// The open rows of a map that takes cells by rising code: the beginning of a record for each level.
ghost use Rattle.std.specs.Prelude.{◌≡◌, ℕ, ◌+◌, ◌-◌, ◌%◌, ◌^◌, ◌<◌, min, count_ones, slice_index};
ghost use Rattle.nodes.specs.Records.{none};
ghost use Rattle.dag.specs.Rows.{empty_row, with_child};
ghost use Rattle.voxels.specs.Stands.{EmptyRows};

use crate::child::Child;
use nodes::node::{CHILDREN, NONE, Node};
use std::array;

// A row for each level that a hall can have: row j is of level j + 1.
pub(crate) const ROWS: usize = 10;

// The record of a sub-cube with the children that are closed, and the number of their cells.
#[derive(Clone, Copy, PartialEq, Eq, Debug)]
pub(crate) struct OpenRow {
    pub(crate) node: Node,
    pub(crate) count: u32,
}

impl OpenRow {
    // A row of the level, without children.
    pub(crate) fn empty(level: u8) -> OpenRow
        ensures node { (j : ℕ) → level ≡ j + 1 → result.node ≡ empty_row j }
        ensures count { result.count ≡ 0 }
    {
        OpenRow {
            node: Node {
                level,
                mask: 0,
                links: [NONE; CHILDREN],
                offsets: [0; CHILDREN],
            },
            count: 0,
        }
    }

    // One more child, behind those that are there: its link, and the cells that it holds.
    pub(crate) fn take_child(&mut self, child: Child, link: u16, cells: u32)
        ensures node { self.old.node.mask < 2 ^ child.i → self.new.node ≡ with_child self.old.node child.i link self.old.count }
        ensures count { self.new.count ≡ min (self.old.count + cells) (2 ^ 32 - 1) }
    {
        self.node.mask = child.above(self.node.mask);
        self.node.links[child.i] = link;
        self.node.offsets[child.i] = self.count;
        self.count = self.count.saturating_add(cells);
    }

    // One more cell in a row of level 1, behind those that are there. A cell has no record, so its link stays none.
    pub(crate) fn take_cell(&mut self, child: Child)
        ensures node { self.old.node.mask < 2 ^ child.i → slice_index self.old.node.links child.i ≡ none → self.new.node ≡ with_child self.old.node child.i none (count_ones (self.old.node.mask % 2 ^ child.i)) }
        ensures count { self.new.count ≡ min (self.old.count + 1) (2 ^ 32 - 1) }
    {
        self.node.offsets[child.i] = child.ones_below(self.node.mask);
        self.node.mask = child.above(self.node.mask);
        self.count = self.count.saturating_add(1);
    }
}

// An empty row for each level.
pub(crate) fn empty_rows() -> [OpenRow; ROWS]
    ensures { EmptyRows result }
{
    array::from_fn(
        |j: usize| -> OpenRow
            requires { j < 10 }
            ensures { (result.node ≡ empty_row j) × (result.count ≡ 0) }
        { OpenRow::empty(j as u8 + 1) },
    )
}
