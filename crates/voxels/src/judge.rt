// Judging a delivered list: whether some set of cells seals to it, and how many cells there are.
// No memory is wanted beside the pool, and no cell is gone to.
ghost use Rattle.voxels.specs.Judges.{Judged};

use crate::judge::count::size_of;
use crate::judge::order::met_after;
use crate::list::HallList;
use nodes::pool::NodePool;

mod count;
mod order;
mod records;

impl<P: NodePool> HallList<'_, P> {
    // The number of cells of the set that seals to the list, or absent if no set does.
    pub(crate) fn cells(&self) -> Option<u64>
        ensures { Judged self.now.levels.count (P.NodePool.nodes self.now.pool.now) result }
    {
        if !self.all_fit() {
            return None;
        }
        if self.pool.count() == 0 {
            return Some(0);
        }
        let root = self.root()?;
        let _all = met_after(self.pool, self.levels.count, root, 0)?;
        Some(size_of(self.pool, self.levels.count, root))
    }
}
