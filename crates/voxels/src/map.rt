// The map of a hall, over any pool, any store and any kind of tags.
ghost use Rattle.std.specs.Prelude.{◌≡◌, ◌^◌, ◌<◌, true, false, not, [], ◌∷◌, ◌++◌, length, take, Some, OnErr, OnOk, slice_index_or};
ghost use Rattle.std.specs.List.{slice_get};
ghost use Rattle.cells.specs.Refusals.{answer, gives, refuse_if};
ghost use Rattle.cells.specs.Hall.{levels_fit};
ghost use Rattle.nodes.specs.Records.{blank};
ghost use Rattle.nodes.specs.Pools.{front};
ghost use Rattle.tags.specs.Stores.{can_add};
ghost use Rattle.voxels.specs.Closes.{RowsFor};
ghost use Rattle.voxels.specs.Finds.{found};
ghost use Rattle.voxels.specs.Growing.{Grown};
ghost use Rattle.voxels.specs.Looks.{shows};
ghost use Rattle.voxels.specs.Places.{CellTaken};
ghost use Rattle.voxels.specs.Shown.{shown, Fixed, Refused, ShowsOpen};
ghost use Rattle.voxels.specs.Tells.{looked, LookTells, PlaceEarly, PlaceTells, SealEarly, SealTells};

use crate::child::Child;
use crate::close::closed_rows;
use crate::found::Found;
use crate::list::HallList;
use crate::phase::Phase;
use crate::plain::Plain;
use crate::row::{OpenRow, ROWS};
use cells::hall::Cell;
use cells::levels::Levels;
use cells::refusal::Refusal;
use nodes::node::Node;
use nodes::pool::NodePool;
use std::marker::PhantomData;
use tags::kind::TagKind;
use tags::store::TagStore;

mod adopt;
mod retag;
mod strictest;
mod write;

// A map over a pool that holds its node list, a store that holds the words of its tags, and a kind of tags.
#[derive(Drop)]
pub struct Map<P, S, K> {
    pool: P,
    store: S,
    plain: Plain,
    kind: PhantomData<K>,
}

impl<P: NodePool, S: TagStore, K: TagKind> Map<P, S, K> {
    // A map over pool and store as they are.
    fn over(pool: P, store: S, plain: Plain) -> Map<P, S, K>
        ensures { (result.pool ≡ pool) × (result.store ≡ store) × (result.plain ≡ plain) }
    {
        Map {
            pool,
            store,
            plain,
            kind: PhantomData,
        }
    }

    // A map without cells over an emptied pool and store. Bad levels give a void map, with both untouched.
    pub fn open(levels: u32, pool: P, store: S) -> Map<P, S, K>
        ensures void { levels_fit levels ≡ false → (result.plain.phase ≡ Phase.Void Refusal.Levels) × (result.pool ≡ pool) × (result.store ≡ store) }
        ensures fixed { (P.NodePool.capacity result.pool ≡ P.NodePool.capacity pool) × (P.NodePool.behind result.pool ≡ P.NodePool.behind pool) }
        ensures rule { S.TagStore.admits result.store ≡ S.TagStore.admits store }
        ensures stands { levels_fit levels ≡ true → ShowsOpen K.TagKind.word_of levels [] [] (shown P.NodePool S.TagStore result) }
    {
        let mut pool = pool;
        let mut store = store;
        let phase = match Levels::try_from(levels) {
            Ok(_) => {
                pool.cut(0);
                store.empty();
                Phase::Open
            }
            Err(refusal) => Phase::Void(refusal),
        };
        Map::over(pool, store, Plain::in_phase(levels, phase))
    }

    // The number of records, in any state.
    pub fn node_count(&self) -> usize
        ensures { result ≡ length (P.NodePool.nodes self.now.pool) }
    {
        self.pool.count() // records of the list
    }

    // The number of cells, in any state.
    pub fn cell_count(&self) -> usize
        ensures { result ≡ length (S.TagStore.words self.now.store) }
    {
        self.store.count()
    }

    // Record n, or a blank one past the end, in any state.
    pub fn node(&self, n: usize) -> Node
        ensures { result ≡ slice_index_or (P.NodePool.nodes self.now.pool) n blank }
    {
        self.pool.read(n)
    }

    // Word n, or absent past the end, in any state.
    pub fn word(&self, n: usize) -> Option<u32>
        ensures { result ≡ slice_get (S.TagStore.words self.now.store) n }
    {
        self.store.word(n)
    }

    // Pool and store, which ends the map.
    pub fn into_parts(self) -> (P, S)
        ensures { (result.0 ≡ self.pool) × (result.1 ≡ self.store) }
    {
        let Map {
            pool,
            store,
            plain: _,
            kind: _,
        } = self;
        (pool, store)
    }

    // What stands at a cell: free, or its rank and its tag.
    pub fn look(&self, cell: Cell) -> Result<Option<Found<K>>, Refusal>
        ensures list { answer result ≡ looked K.TagKind.reading (shown P.NodePool S.TagStore self.now) cell }
        ensures tells { LookTells K.TagKind.word_of cell (shown P.NodePool S.TagStore self.now) (answer result) }
    {
        let levels = self.plain.sealed()?;
        let code = levels.code_of(cell)?;
        Ok(self.found_at(levels, code))
    }

    // What the list and the words have at a code.
    fn found_at(&self, levels: Levels, code: u32) -> Option<Found<K>>
        ensures { result ≡ shows K.TagKind.reading (S.TagStore.words self.now.store) (found levels.count (P.NodePool.nodes self.now.pool) code) }
    {
        let list = HallList {
            pool: &self.pool,
            levels,
        };
        let rank = list.rank_of(code)?;
        let word = self.store.word(rank as usize)?;
        K::read(word).map(|tag| Found { rank, tag })
    }

    // The rows in which a cell above the last one lies, after all that ends below it is closed.
    fn rows_for(&mut self, levels: Levels, code: u32) -> Result<[OpenRow; ROWS], Refusal>
        requires open { self.old.plain.phase ≡ Phase.Open }
        requires inside { code < 8 ^ levels.count }
        requires levels { levels.count ≡ self.old.plain.levels }
        ensures grown { Grown P.NodePool self.old.pool self.new.pool }
        ensures rest { (self.new.store ≡ self.old.store) × (self.new.plain ≡ self.old.plain) }
        ensures rows { RowsFor levels.count code self.old.plain.last (P.NodePool.nodes self.old.pool) (P.NodePool.memory self.old.pool) (P.NodePool.capacity self.old.pool) self.old.plain.rows (P.NodePool.nodes self.new.pool) (P.NodePool.memory self.new.pool) result }
    {
        let rows = self.plain.rows;
        let Some(last) = self.plain.last else {
            return Ok(rows);
        };
        if code <= last {
            return Err(Refusal::NotAbove);
        }
        closed_rows(&mut self.pool, rows, levels, last, code)
    }

    // Takes a cell and its tag, with the rows in which the cell lies. Where the store refuses the word, the pool is cut back.
    fn add_cell(
        &mut self,
        before: usize,
        rows: [OpenRow; ROWS],
        code: u32,
        tag: K,
    ) -> Result<(), Refusal>
        requires { code < 8 ^ self.old.plain.levels }
        ensures fixed { Fixed (shown P.NodePool S.TagStore self.old) (shown P.NodePool S.TagStore self.new) }
        ensures answers { answer result ≡ refuse_if (not (can_add (S.TagStore.admits self.old.store) (S.TagStore.words self.old.store) (K.TagKind.word_of tag))) 7 (gives tt) }
        ensures taken { OnOk result ((S.TagStore.words self.new.store ≡ S.TagStore.words self.old.store ++ K.TagKind.word_of tag ∷ []) × (self.new.pool ≡ self.old.pool) × (self.new.plain.phase ≡ self.old.plain.phase) × (self.new.plain.levels ≡ self.old.plain.levels) × (self.new.plain.last ≡ Some code) × CellTaken rows code self.new.plain.rows) }
        ensures refused { OnErr result ((S.TagStore.words self.new.store ≡ S.TagStore.words self.old.store) × (self.new.plain ≡ self.old.plain) × (P.NodePool.nodes self.new.pool ≡ take before (P.NodePool.nodes self.old.pool)) × (front (length (P.NodePool.nodes self.new.pool)) (P.NodePool.memory self.new.pool) ≡ front (length (P.NodePool.nodes self.new.pool)) (P.NodePool.memory self.old.pool))) }
    {
        // plainer than a `map_err` whose closure cuts the pool
        if let Err(refusal) = self.store.add(tag.word()) {
            self.pool.cut(before);
            return Err(refusal);
        }
        let mut rows = rows;
        rows[0].take_cell(Child::of(0, code));
        let Plain { levels, phase, .. } = self.plain;
        self.plain = Plain {
            levels,
            phase,
            last: Some(code),
            rows,
        };
        Ok(())
    }

    // Places a cell with its tag. The codes of the cells rise from call to call.
    pub fn place(&mut self, code: u32, tag: K) -> Result<(), Refusal>
        ensures fixed { Fixed (shown P.NodePool S.TagStore self.old) (shown P.NodePool S.TagStore self.new) }
        ensures kept { Refused (answer result) (shown P.NodePool S.TagStore self.new ≡ shown P.NodePool S.TagStore self.old) }
        ensures early { PlaceEarly code (shown P.NodePool S.TagStore self.old) (answer result) }
        ensures tells { PlaceTells K.TagKind.word_of code tag (shown P.NodePool S.TagStore self.old) (shown P.NodePool S.TagStore self.new) (answer result) }
    {
        let levels = self.plain.open()?;
        levels.check_code(code)?;
        let before = self.pool.count();
        let rows = self.rows_for(levels, code)?;
        self.add_cell(before, rows, code, tag)
    }

    // Ends the placing of cells: the list becomes the sealed list of the cells.
    pub fn seal(&mut self) -> Result<(), Refusal>
        ensures fixed { Fixed (shown P.NodePool S.TagStore self.old) (shown P.NodePool S.TagStore self.new) }
        ensures kept { Refused (answer result) (shown P.NodePool S.TagStore self.new ≡ shown P.NodePool S.TagStore self.old) }
        ensures early { SealEarly (shown P.NodePool S.TagStore self.old) (answer result) }
        ensures tells { SealTells K.TagKind.word_of (shown P.NodePool S.TagStore self.old) (shown P.NodePool S.TagStore self.new) (answer result) }
    {
        let levels = self.plain.open()?;
        let Plain { last, mut rows, .. } = self.plain;
        if let Some(code) = last {
            rows = closed_rows(&mut self.pool, rows, levels, code, levels.volume())?;
        }
        self.plain = Plain {
            levels: levels.count,
            phase: Phase::Sealed,
            last,
            rows,
        };
        Ok(())
    }
}
