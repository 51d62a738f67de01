// Checking the records of a delivered list one after another: their rules, their offsets, and that none stands twice.
ghost use Rattle.std.specs.Prelude.{◌≡◌, ℕ, ◌<◌, ◌≤◌, length, Decides};
ghost use Rattle.nodes.specs.Records.{children};
ghost use Rattle.dag.specs.Records.{lowest};
ghost use Rattle.dag.specs.Sizes.{size_before};
ghost use Rattle.dag.specs.Judged.{NodePasses};
ghost use Rattle.dag.specs.Checks.{ChildRight, LinkRight, PassTo};

use crate::child::Child;
use crate::list::{Branch, HallList};
use nodes::node::{CHILDREN, NONE, Node};
use nodes::pool::NodePool;
use nodes::tail::find;

impl<P: NodePool> Branch<'_, P> {
    // Whether the link to a child is right: a cell has none, and any other child is an earlier record of the level below.
    fn link_fits(&self, link: u16) -> bool
        ensures { Decides result (LinkRight (P.NodePool.nodes self.now.pool.now) self.now.below self.now.n link) }
    {
        if self.below == 0 {
            return link == NONE;
        }
        let to = usize::from(link);
        to < self.n && u32::from(self.pool.level_at(to)) == self.below
    }

    // Whether link and offset of a child are right, where so many cells are under the children before.
    fn child_fits(&self, child: Child, before: u64) -> bool
        requires { before ≡ size_before (P.NodePool.nodes self.now.pool.now) self.now.below self.now.n child.i }
        ensures { Decides result (ChildRight (P.NodePool.nodes self.now.pool.now) self.now.below self.now.n child.i) }
    {
        let link = self.pool.link_at(self.n, child.i);
        let offset = u64::from(self.pool.offset_at(self.n, child.i));
        if child.is_in(self.pool.mask_at(self.n)) {
            offset == before && self.link_fits(link)
        } else {
            offset == 0 && link == NONE
        }
    }

    // Whether all links and offsets are right, where the records before it pass. The sum so far makes it a loop.
    fn children_fit(&self) -> bool
        requires { (self.now.below ≤ 10) × ((self.now.n < length (P.NodePool.nodes self.now.pool.now)) × (((L : ℕ) × PassTo L (P.NodePool.nodes self.now.pool.now) self.now.n))) }
        ensures { Decides result ((i : ℕ) → i < 8 → ChildRight (P.NodePool.nodes self.now.pool.now) self.now.below self.now.n i) }
    {
        let mut before = 0;
        for i in 0..CHILDREN {
            let child = Child { i };
            if !self.child_fits(child, before) {
                return false;
            }
            before += self.cells_in(child);
        }
        true
    }
}

// What the types of a record's parts say of it: a mask of eight bits, eight links and eight offsets.
fn shaped(mask: u8, links: &[u16; CHILDREN], offsets: &[u32; CHILDREN])
    ensures mask { mask < 256 }
    ensures links { length links.now ≡ children }
    ensures offsets { length offsets.now ≡ children }
{}

// Whether n is the lowest number of a record that equals the record, the count where there is none.
fn stands_alone<P: NodePool>(pool: &P, node: &Node, n: usize) -> bool
    ensures { Decides result (lowest (P.NodePool.nodes pool.now) node.now ≡ n) }
{
    find(pool, node, 0).unwrap_or(pool.count()) == n
}

impl<P: NodePool> HallList<'_, P> {
    // Whether record n is right, where the records before it are: its level and its mask, its links and offsets, and no lower record equals it.
    fn record_fits(&self, n: usize) -> bool
        requires { (n < length (P.NodePool.nodes self.now.pool.now)) × (PassTo self.now.levels.count (P.NodePool.nodes self.now.pool.now) n) }
        ensures { Decides result (NodePasses self.now.levels.count (P.NodePool.nodes self.now.pool.now) n) }
    {
        let node = self.pool.read(n);
        shaped(node.mask, &node.links, &node.offsets);
        let level = u32::from(node.level);
        if level == 0 {
            return false;
        }
        if level > self.levels.count {
            return false;
        }
        if node.mask == 0 {
            return false;
        }
        let branch = Branch {
            pool: self.pool,
            below: level - 1,
            n,
        };
        if !branch.children_fit() {
            return false;
        }
        stands_alone(self.pool, &node, n)
    }

    // Whether all records are right. Each check asks that the records before it passed, which no chain says of its calls.
    pub(super) fn all_fit(&self) -> bool
        ensures { Decides result (PassTo self.now.levels.count (P.NodePool.nodes self.now.pool.now) (length (P.NodePool.nodes self.now.pool.now))) }
    {
        for n in 0..self.pool.count() {
            if !self.record_fits(n) {
                return false;
            }
        }
        true
    }
}
