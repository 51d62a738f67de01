// What adopt says of a pool and a store of speed limits.
use cells::hall::Cell;
use cells::refusal::Refusal;
use nodes::pool::NodePool;
use tags::speed::Speed;
use tags::store::TagStore;
use voxels::map::Map;

// Its verdict, as look passes it on.
pub(crate) fn adopted<P: NodePool + Drop, S: TagStore + Drop>(
    levels: u32,
    pool: P,
    store: S,
) -> Result<(), Refusal> {
    let map: Map<P, S, Speed> = Map::adopt(levels, pool, store);
    map.look(Cell { x: 0, y: 0, z: 0 }).map(|_| ())
}
