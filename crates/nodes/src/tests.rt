// Pools at their bounds: no room, a full pool, a count above the capacity, a part record.
use crate::byte_pool::BytePool;
use crate::node::{NODE_BYTES, Node};
use crate::pool::NodePool;
use crate::row_pool::RowPool;
use crate::tail::find;

// A record that no blank equals.
fn sample() -> Node {
    Node {
        level: 3,
        mask: 129,
        links: [1, 65_535, 2, 65_535, 3, 65_535, 4, 258],
        offsets: [0, 1, 70_000, 3, 4, 5, 6, 7],
    }
}

#[test]
fn no_room(rt: HostRuntime) {
    let mut rows = [sample(); 0];
    let mut pool = RowPool::over(&mut rows, 5);
    assert!(rt; pool.count() == 0);
    assert!(rt; pool.add(sample()).is_err());
    assert!(rt; pool.read(0) == Node::blank());
}

#[test]
fn full_pool(rt: HostRuntime) {
    let mut rows = [sample(); 2];
    let mut pool = RowPool::empty(&mut rows);
    assert!(rt; find(&pool, &sample(), 0).is_none());
    assert!(rt; pool.add(Node::blank()).is_ok());
    assert!(rt; pool.add(sample()).is_ok());
    assert!(rt; pool.add(sample()).is_err());
    assert!(rt; find(&pool, &sample(), 0) == Some(1));
    assert!(rt; find(&pool, &sample(), 2).is_none());
    pool.cut(1);
    assert!(rt; pool.count() == 1 && pool.read(1) == Node::blank());
    assert!(rt; rows[1] == Node::blank());
}

#[test]
fn count_above_capacity(rt: HostRuntime) {
    let mut rows = [sample(); 2];
    let pool = RowPool::over(&mut rows, 3);
    assert!(rt; pool.count() == 2);
    assert!(rt; pool.read(1) == sample() && pool.link_at(1, 7) == 258);
}

#[test]
fn part_record(rt: HostRuntime) {
    let mut bytes = [7; 120];
    let mut pool = BytePool::over(&mut bytes, 1);
    assert!(rt; pool.count() == 1 && pool.link_at(0, 0) == 1_799);
    assert!(rt; pool.add(sample()).is_ok());
    assert!(rt; pool.add(sample()).is_err());
    assert!(rt; pool.read(1) == sample() && pool.offset_at(1, 2) == 70_000);
    pool.cut(1);
    assert!(rt; bytes[49] == 7 && bytes[50] == 0 && bytes[99] == 0 && bytes[100] == 7);
}

#[test]
fn written_form(rt: HostRuntime) {
    let bytes = sample().to_bytes();
    assert!(rt; bytes[0] == 3 && bytes[1] == 129 && bytes[16] == 2 && bytes[17] == 1);
    assert!(rt; bytes.len() == NODE_BYTES && Node::from_bytes(&bytes) == sample());
}
