// The walk from the root to a cell.
ghost use Rattle.std.specs.Prelude.{◌≡◌, ◌<◌, false, length, MatchOption};
ghost use Rattle.voxels.specs.Finds.{found, has_root, GoesTo, IsRoot, Shut};

use crate::child::Child;
use crate::list::{Branch, HallList};
use nodes::pool::NodePool;

// Where a step of a walk leads, and the offset that it adds to the rank.
#[derive(Clone, Copy, PartialEq, Eq, Debug)]
pub(crate) struct StepTo {
    pub(crate) next: usize,
    pub(crate) offset: u32,
}

impl<P: NodePool> Branch<'_, P> {
    // One step to a child, or absent where all of the child is free. On level 1 the step ends at the cell.
    pub(crate) fn step_to(&self, child: Child) -> Option<StepTo>
        requires level { self.now.below < 10 }
        requires inside { self.now.n < length (P.NodePool.nodes self.now.pool.now) }
        ensures { MatchOption result (Shut (P.NodePool.nodes self.now.pool.now) self.now.below self.now.n child.i) (λ s. GoesTo (P.NodePool.nodes self.now.pool.now) self.now.below self.now.n child.i s.next s.offset) }
    {
        let Branch { pool, below, n } = *self;
        if !child.is_in(pool.mask_at(n)) {
            return None;
        }
        let offset = pool.offset_at(n, child.i);
        if below == 0 {
            return Some(StepTo { next: n, offset });
        }
        let next = usize::from(pool.link_at(n, child.i));
        if next >= n {
            return None;
        }
        if u32::from(pool.level_at(next)) != below {
            return None;
        }
        Some(StepTo { next, offset })
    }
}

impl<P: NodePool> HallList<'_, P> {
    // The number of the last record, if that has the level of a root.
    pub(crate) fn root(&self) -> Option<usize>
        ensures { MatchOption result (has_root self.now.levels.count (P.NodePool.nodes self.now.pool.now) ≡ false) (IsRoot self.now.levels.count (P.NodePool.nodes self.now.pool.now)) }
    {
        let root = self.pool.count().checked_sub(1)?;
        (u32::from(self.pool.level_at(root)) == self.levels.count).then_some(root)
    }

    // The rank of a code that the list marks, or absent where the code is free.
    pub(crate) fn rank_of(&self, code: u32) -> Option<u64>
        ensures { result ≡ found self.now.levels.count (P.NodePool.nodes self.now.pool.now) code }
    {
        let mut n = self.root()?;
        let mut rank = 0;
        for below in (0..self.levels.count).rev() {
            let branch = Branch {
                pool: self.pool,
                below,
                n,
            };
            let taken = branch.step_to(Child::of(below, code))?;
            n = taken.next;
            rank += u64::from(taken.offset);
        }
        Some(rank)
    }
}
