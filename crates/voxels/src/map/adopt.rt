// Taking a map as it was delivered: a filled pool and a filled store.
ghost use Rattle.std.specs.Prelude.{◌≡◌, None, Decides};
ghost use Rattle.dag.specs.Delivered.{marked};
ghost use Rattle.voxels.specs.Adopts.{AllTags, TakesSealed, Verdict, tags_of};
ghost use Rattle.voxels.specs.Phases.{refused_by, void_by};
ghost use Rattle.voxels.specs.Shown.{shown};
ghost use Rattle.voxels.specs.Shown.{ShowsSealed};

use crate::list::HallList;
use crate::map::Map;
use crate::phase::Phase;
use crate::plain::Plain;
use cells::levels::Levels;
use cells::refusal::Refusal;
use nodes::pool::NodePool;
use tags::kind::TagKind;
use tags::store::TagStore;

impl<P: NodePool, S: TagStore, K: TagKind> Map<P, S, K> {
    // Whether every word of the store is that of a tag.
    fn all_tags(store: &S) -> bool
        ensures { Decides result (AllTags K.TagKind.reading (S.TagStore.words store.now)) }
    {
        (0..store.count()).all(|n| store.word(n).and_then(|word| K::read(word)).is_some())
    }

    // What makes a delivered map void, by the first number that holds.
    fn judged(levels: u32, pool: &P, store: &S) -> Result<(), Refusal>
        ensures { Verdict K.TagKind.reading levels (P.NodePool.nodes pool.now) (S.TagStore.words store.now) (refused_by result) }
    {
        let levels = Levels::try_from(levels)?;
        let cells = HallList { pool, levels }.cells().ok_or(Refusal::NotSealed)?;
        if store.count() as u64 != cells || !Self::all_tags(store) {
            return Err(Refusal::TagsUnfit);
        }
        Ok(())
    }

    // A map over a pool and a store as they were filled. It is sealed if some set of cells seals to the pool's list
    // and the store has a tag's word for each cell, and otherwise void. Both stay as they are.
    pub fn adopt(levels: u32, pool: P, store: S) -> Map<P, S, K>
        ensures untouched { (result.pool ≡ pool) × (result.store ≡ store) }
        ensures reason { Verdict K.TagKind.reading levels (P.NodePool.nodes pool) (S.TagStore.words store) (void_by result.plain.phase) }
        ensures stands { void_by result.plain.phase ≡ None → ShowsSealed K.TagKind.word_of levels (marked levels (P.NodePool.nodes pool)) (tags_of K.TagKind.reading (S.TagStore.words store)) (shown P.NodePool S.TagStore result) }
        ensures taken { TakesSealed K.TagKind.word_of levels (P.NodePool.nodes pool) (S.TagStore.words store) (shown P.NodePool S.TagStore result) }
    {
        let phase = match Self::judged(levels, &pool, &store) {
            Ok(()) => Phase::Sealed,
            Err(refusal) => Phase::Void(refusal),
        };
        Map::over(pool, store, Plain::in_phase(levels, phase))
    }
}
