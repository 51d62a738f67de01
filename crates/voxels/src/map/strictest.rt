// The strictest tag in a box.
ghost use Rattle.std.specs.Prelude.{◌≡◌, true};
ghost use Rattle.cells.specs.Refusals.{answer};
ghost use Rattle.cells.specs.Hall.{cell_fits};
ghost use Rattle.voxels.specs.Shown.{shown};
ghost use Rattle.voxels.specs.Strict.{IsStrictest, StrictestTells, strictest_answer, summary, tags_over};
ghost use Rattle.voxels.specs.Sweeps.{look_at};

use super::Map;
use crate::list::HallList;
use crate::strictest::Strictest;
use crate::sweep::sweep;
use cells::boxes::CellBox;
use cells::hall::Cell;
use cells::levels::Levels;
use cells::refusal::Refusal;
use nodes::pool::NodePool;
use tags::kind::RankedKind;
use tags::store::TagStore;

impl<P: NodePool, S: TagStore, K: RankedKind> Map<P, S, K> {
    // The number and the strictest tag of the occupied cells of a box of the hall.
    fn over_box(&self, levels: Levels, bounds: &CellBox) -> Strictest<K>
        requires low { cell_fits levels.count bounds.now.low ≡ true }
        requires high { cell_fits levels.count bounds.now.high ≡ true }
        ensures { result ≡ summary K.RankedKind.stricter (tags_over levels.count bounds.now (look_at K.TagKind.reading levels.count (P.NodePool.nodes self.now.pool) (S.TagStore.words self.now.store))) }
    {
        let mut best = Strictest {
            cells: 0,
            tag: None,
        };
        let list = HallList {
            pool: &self.pool,
            levels,
        };
        if let Some(root) = list.root_visit() {
            sweep(&self.pool, &self.store, bounds, root, &mut best);
        }
        best
    }

    // The number and the strictest tag of the occupied cells of a box, both corners inside it.
    pub fn strictest(&self, low: Cell, high: Cell) -> Result<Strictest<K>, Refusal>
        ensures looks { answer result ≡ strictest_answer K.TagKind.reading K.RankedKind.stricter (shown P.NodePool S.TagStore self.now) low high }
        ensures strictest { IsStrictest K.TagKind.reading K.RankedKind.stricter (shown P.NodePool S.TagStore self.now) low high (answer result) }
        ensures tells { StrictestTells K.TagKind.word_of K.RankedKind.stricter low high (shown P.NodePool S.TagStore self.now) (answer result) }
    {
        let levels = self.plain.sealed()?;
        let bounds = levels.box_of(low, high)?;
        Ok(self.over_box(levels, &bounds))
    }
}
