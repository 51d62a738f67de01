// Every hall of one level is taken, and answers as the map that was sealed.
ghost use Rattle.std.specs.Prelude.{◌<◌};

use cells::hall::Cell;
use cells::refusal::Refusal;
use nodes::byte_pool::BytePool;
use nodes::node::Node;
use nodes::pool::NodePool;
use nodes::row_pool::RowPool;
use std::process::Abort;
use std::test::Fail;
use tags::flat::FlatStore;
use tags::kind::TagKind;
use tags::speed::Speed;
use tags::store::TagStore;
use voxels::map::Map;

// What a mask has at a code: the limit 100 i at the cell with code i, where bit i is set.
fn limit_in(mask: u32, code: u32) -> Option<u32>
    requires { code < 8 }
{
    ((mask >> code) % 2 == 1).then_some(100 * code)
}

// A sealed map of one level with the cells of a mask.
fn sealed<P: NodePool + Drop, S: TagStore + Drop>(
    pool: P,
    store: S,
    mask: u32,
) -> Result<Map<P, S, Speed>, Refusal> {
    let mut map = Map::open(1, pool, store);
    for code in 0..8 {
        if let Some(limit) = limit_in(mask, code) {
            map.place(code, Speed::new(limit)?)?;
        }
    }
    map.seal()?;
    Ok(map)
}

// Seals the hall, hands pool and store over, and adopts them: each cell is free or has its limit, as the mask says.
fn comes_back<P: NodePool + Drop, S: TagStore + Drop>(
    rt: &impl Abort,
    pool: P,
    store: S,
    mask: u32,
) -> Result<(), Fail> {
    let (pool, store) = sealed(pool, store, mask)?.into_parts();
    let map: Map<P, S, Speed> = Map::adopt(1, pool, store);
    for code in 0..8 {
        let cell = Cell {
            x: code % 2,
            y: code / 2 % 2,
            z: code / 4,
        };
        let limit = map.look(cell)?.map(|found| found.tag.word());
        assert_eq!(rt; limit, limit_in(mask, code));
    }
    Ok(())
}

#[test]
fn every_hall_of_one_level(rt: HostRuntime) -> Result<(), Fail> {
    for mask in 0..256 {
        comes_back(
            &rt,
            RowPool::empty(&mut [Node::blank(); 1]),
            FlatStore::new(&mut [0; 8]),
            mask,
        )?;
        comes_back(
            &rt,
            BytePool::empty(&mut [0; 50]),
            FlatStore::new(&mut [0; 8]),
            mask,
        )?;
    }
    Ok(())
}
