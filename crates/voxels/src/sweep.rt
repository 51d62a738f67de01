// Going through the occupied cells of a box: sub-cubes that are free or beside the box are not gone into.
ghost use Rattle.std.specs.Prelude.{ℕ, List};
ghost use Rattle.voxels.specs.Visiting.{Near, Ready};
ghost use Rattle.voxels.specs.Sweeps.{Swept, tagged_at};
ghost use Rattle.voxels.specs.Strict.{Took};

use crate::child::Child;
use crate::strictest::Strictest;
use crate::visit::{Visit, child_visit};
use cells::boxes::CellBox;
use nodes::node::CHILDREN;
use nodes::pool::NodePool;
use tags::kind::RankedKind;
use tags::store::TagStore;

// Counts the tag of the cell with a rank. No sound map lacks its word.
fn take_rank<S: TagStore, K: RankedKind>(store: &S, rank: u64, best: &mut Strictest<K>)
    ensures { Took K.RankedKind.stricter best.old (tagged_at K.TagKind.reading (S.TagStore.words store.now) rank) best.new }
{
    if let Some(tag) = store.word(rank as usize).and_then(|word| K::read(word)) {
        best.take(tag);
    }
}

// Counts the tags of all occupied cells of the box in the sub-cube that is visited.
pub(crate) fn sweep<P: NodePool, S: TagStore, K: RankedKind>(
    pool: &P,
    store: &S,
    bounds: &CellBox,
    visit: Visit,
    best: &mut Strictest<K>,
)
    requires ready { Ready (P.NodePool.nodes pool.now) visit }
    requires near { Near bounds.now.high }
    ensures { Swept K.TagKind.reading K.RankedKind.stricter (P.NodePool.nodes pool.now) (S.TagStore.words store.now) bounds.now visit best.old best.new }
{
    if visit.level == 0 {
        take_rank(store, visit.rank, best);
        return;
    }
    for i in 0..CHILDREN {
        if let Some(next) = child_visit(pool, bounds, visit, Child { i }) {
            sweep(pool, store, bounds, next, best);
        }
    }
}
