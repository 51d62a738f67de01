// Changing the tag of a cell.
ghost use Rattle.std.specs.Prelude.{◌≡◌};
ghost use Rattle.cells.specs.Refusals.{answer};
ghost use Rattle.voxels.specs.Shown.{shown, Refused};
ghost use Rattle.voxels.specs.Retags.{Changes, RetagTells, retag_answer};

use super::Map;
use crate::list::HallList;
use cells::hall::Cell;
use cells::refusal::Refusal;
use nodes::pool::NodePool;
use tags::kind::TagKind;
use tags::store::TagStore;

impl<P: NodePool, S: TagStore, K: TagKind> Map<P, S, K> {
    // Gives a cell another tag.
    pub fn retag(&mut self, cell: Cell, tag: K) -> Result<(), Refusal>
        ensures answers { answer result ≡ retag_answer (shown P.NodePool S.TagStore self.old) cell (K.TagKind.word_of tag) }
        ensures kept { Refused (answer result) (shown P.NodePool S.TagStore self.new ≡ shown P.NodePool S.TagStore self.old) }
        ensures changes { Changes cell (K.TagKind.word_of tag) (shown P.NodePool S.TagStore self.old) (shown P.NodePool S.TagStore self.new) (answer result) }
        ensures tells { RetagTells K.TagKind.word_of cell tag (shown P.NodePool S.TagStore self.old) (shown P.NodePool S.TagStore self.new) (answer result) }
    {
        let levels = self.plain.sealed()?;
        let code = levels.code_of(cell)?;
        let list = HallList {
            pool: &self.pool,
            levels,
        };
        let rank = list.rank_of(code).ok_or(Refusal::NothingThere)?;
        self.store.change(rank as usize, tag.word())
    }
}
