// Maps as bytes, and back.
use cells::refusal::Refusal;
use nodes::byte_pool::BytePool;
use nodes::node::Node;
use nodes::pool::NodePool;
use nodes::row_pool::RowPool;
use std::process::Abort;
use std::test::Fail;
use tags::flat::FlatStore;
use tags::load::Load;
use tags::store::TagStore;
use voxels::map::Map;

// The three-record hall with loads in zones; its words need all three bytes.
fn fill<P: NodePool, S: TagStore>(map: &mut Map<P, S, Load>) -> Result<(), Refusal> {
    for (code, load, zone) in [(0, 6300, 255), (8, 0, 0), (17, 258, 1)] {
        map.place(code, Load::new(load, zone)?)?;
    }
    map.seal()
}

// A buffer one byte too short is refused and stays as it was; longer ones keep what lies behind.
fn write_edges<P: NodePool + Drop, S: TagStore + Drop>(
    rt: &impl Abort,
    pool: P,
    store: S,
) -> Result<(), Fail> {
    let mut map = Map::open(2, pool, store);
    let mut nodes = [7; 152];
    let mut tags = [7; 10];
    assert_eq!(rt; map.write(&mut nodes, &mut tags), Err(Refusal::State));
    fill(&mut map)?;
    assert_eq!(rt;
        map.write(&mut nodes[0..149], &mut tags),
        Err(Refusal::BufferShort)
    );
    assert_eq!(rt;
        map.write(&mut nodes, &mut tags[0..8]),
        Err(Refusal::BufferShort)
    );
    assert_eq!(rt; nodes[0], 7);
    assert_eq!(rt; tags[0], 7);
    assert_eq!(rt; map.write(&mut nodes, &mut tags), Ok(()));
    // the words 2,095,260, 0 and 8,450, each in three bytes with the low one first
    assert!(rt; tags == [156, 248, 31, 0, 0, 0, 2, 33, 0, 7]);
    assert!(rt; nodes[0..4] == [1, 1, 255, 255]);
    assert!(rt; nodes[150..152] == [7, 7]);
    same_records(rt, &map, &mut nodes);
    Ok(())
}

// A byte pool over the written records has the map's.
fn same_records<P: NodePool, S: TagStore>(
    rt: &impl Abort,
    map: &Map<P, S, Load>,
    nodes: &mut [u8],
) {
    let pool = BytePool::over(nodes, 3);
    assert_eq!(rt; pool.count(), map.node_count());
    for n in 0..3 {
        assert_eq!(rt; pool.read(n), map.node(n));
    }
}

#[test]
fn written_and_read_back(rt: HostRuntime) -> Result<(), Fail> {
    write_edges(
        &rt,
        RowPool::empty(&mut [Node::blank(); 4]),
        FlatStore::new(&mut [0; 4]),
    )
}
