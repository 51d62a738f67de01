// Counting the cells under a record without going to them: its offsets tell.
ghost use Rattle.std.specs.Prelude.{◌≡◌, ◌+◌, ◌*◌, ◌^◌, ◌<◌, ◌≤◌, true, ◌==◌};
ghost use Rattle.cells.specs.Hall.{bit};
ghost use Rattle.dag.specs.Rules.{node_at, link_of};
ghost use Rattle.dag.specs.Sizes.{cells_at, has_child, size};
ghost use Rattle.dag.specs.Checks.{Countable};

use crate::child::Child;
use crate::list::Branch;
use nodes::pool::NodePool;

// The number of cells under record n of level k: those before its last child, and those under that child.
pub(super) fn size_of<P: NodePool>(pool: &P, k: u32, n: usize) -> u64
    requires { (k ≤ 10) × (Countable (P.NodePool.nodes pool.now) k n) }
    ensures is { result ≡ size (P.NodePool.nodes pool.now) k n }
    ensures small { result ≤ 10 * 2 ^ 32 + 1 }
{
    let mut total: u64 = 0;
    let mut at = n;
    for _ in 0..k {
        let last = Child::last_in(pool.mask_at(at));
        total += u64::from(pool.offset_at(at, last.i));
        at = usize::from(pool.link_at(at, last.i));
    }
    total + 1
}

impl<P: NodePool> Branch<'_, P> {
    // The number of cells under a child, none where there is no child.
    pub(super) fn cells_in(&self, child: Child) -> u64
        requires { (self.now.below ≤ 10) × ((has_child (node_at (P.NodePool.nodes self.now.pool.now) self.now.n) child.i ≡ true → Countable (P.NodePool.nodes self.now.pool.now) self.now.below (link_of (node_at (P.NodePool.nodes self.now.pool.now) self.now.n) child.i))) }
        ensures is { result ≡ cells_at (P.NodePool.nodes self.now.pool.now) self.now.below self.now.n child.i }
        ensures small { result ≤ 10 * 2 ^ 32 + 1 }
    {
        let Branch { pool, below, n } = *self;
        if child.is_in(pool.mask_at(n)) {
            size_of(pool, below, usize::from(pool.link_at(n, child.i)))
        } else {
            0
        }
    }
}
