// Edges of open, place and seal, over both pools and both stores.
use cells::hall::Cell;
use cells::refusal::Refusal;
use nodes::byte_pool::BytePool;
use nodes::node::Node;
use nodes::pool::NodePool;
use nodes::row_pool::RowPool;
use std::process::Abort;
use std::test::Fail;
use tags::flat::FlatStore;
use tags::label::Label;
use tags::palette::PaletteStore;
use tags::palette::block::Block;
use tags::speed::Speed;
use tags::store::TagStore;
use voxels::map::Map;

// The last code of 2 levels is good, the next one is not.
fn last_code<P: NodePool + Drop, S: TagStore + Drop>(
    rt: &impl Abort,
    pool: P,
    store: S,
) -> Result<(), Fail> {
    let mut map = Map::open(2, pool, store);
    let tag = Speed::new(500)?;
    assert_eq!(rt; map.place(63, tag), Ok(()));
    assert_eq!(rt; map.place(64, tag), Err(Refusal::Outside));
    assert_eq!(rt; map.place(63, tag), Err(Refusal::NotAbove));
    assert_eq!(rt; map.seal(), Ok(()));
    assert_eq!(rt; map.seal(), Err(Refusal::State));
    assert_eq!(rt; map.place(63, tag), Err(Refusal::State));
    Ok(())
}

#[test]
fn last_code_over_rows(rt: HostRuntime) -> Result<(), Fail> {
    last_code(
        &rt,
        RowPool::empty(&mut [Node::blank(); 2]),
        FlatStore::new(&mut [0; 2]),
    )
}

#[test]
fn last_code_over_bytes(rt: HostRuntime) -> Result<(), Fail> {
    last_code(
        &rt,
        BytePool::empty(&mut [0; 100]),
        PaletteStore::new(&mut [Block::blank()]),
    )
}

// A pool with room for one record.
fn one_record<P: NodePool + Drop, S: TagStore + Drop>(
    rt: &impl Abort,
    pool: P,
    store: S,
) -> Result<(), Fail> {
    let mut map = Map::open(2, pool, store);
    let tag = Label::new(7)?;
    assert_eq!(rt; map.place(0, tag), Ok(()));
    assert_eq!(rt; map.place(8, tag), Ok(()));
    assert_eq!(rt; map.place(17, tag), Ok(()));
    assert_eq!(rt; map.place(63, tag), Err(Refusal::PoolFull));
    assert_eq!(rt; map.place(18, tag), Ok(()));
    assert_eq!(rt; map.seal(), Err(Refusal::PoolFull));
    assert_eq!(rt; map.node_count(), 1);
    assert_eq!(rt; map.cell_count(), 4);
    Ok(())
}

#[test]
fn one_record_over_rows(rt: HostRuntime) -> Result<(), Fail> {
    one_record(
        &rt,
        RowPool::empty(&mut [Node::blank(); 1]),
        FlatStore::new(&mut [0; 8]),
    )
}

#[test]
fn one_record_over_bytes(rt: HostRuntime) -> Result<(), Fail> {
    one_record(
        &rt,
        BytePool::empty(&mut [0; 99]),
        PaletteStore::new(&mut [Block::blank()]),
    )
}

// A store with room for one word, and a pool with none for a record.
fn no_room<P: NodePool + Drop, S: TagStore + Drop>(
    rt: &impl Abort,
    pool: P,
    store: S,
) -> Result<(), Fail> {
    let mut map = Map::open(1, pool, store);
    let tag = Speed::new(0)?;
    assert_eq!(rt; map.place(0, tag), Ok(()));
    assert_eq!(rt; map.place(1, tag), Err(Refusal::StoreFull));
    assert_eq!(rt; map.cell_count(), 1);
    assert_eq!(rt; map.seal(), Err(Refusal::PoolFull));
    Ok(())
}

#[test]
fn no_room_for_a_word_or_a_record(rt: HostRuntime) -> Result<(), Fail> {
    no_room(
        &rt,
        RowPool::empty(&mut [Node::blank(); 0]),
        FlatStore::new(&mut [0; 1]),
    )
}

// A void map says the same to everything.
fn void<P: NodePool + Drop, S: TagStore + Drop>(
    rt: &impl Abort,
    levels: u32,
    pool: P,
    store: S,
) -> Result<(), Fail> {
    let mut map = Map::open(levels, pool, store);
    let tag = Speed::new(0)?;
    let far = Cell { x: 9, y: 9, z: 9 };
    assert_eq!(rt; map.place(9999, tag), Err(Refusal::Levels));
    assert_eq!(rt; map.seal(), Err(Refusal::Levels));
    assert_eq!(rt; map.look(far), Err(Refusal::Levels));
    Ok(())
}

#[test]
fn void_by_levels(rt: HostRuntime) -> Result<(), Fail> {
    for levels in [0, 11] {
        void(
            &rt,
            levels,
            RowPool::empty(&mut [Node::blank(); 1]),
            FlatStore::new(&mut [0; 1]),
        )?;
    }
    Ok(())
}
