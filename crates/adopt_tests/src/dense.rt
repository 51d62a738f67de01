// Full halls: a record for each level, whose eight children are one record.
ghost use Rattle.std.specs.Prelude.{◌<◌};

use crate::adopted::adopted;
use cells::refusal::Refusal;
use nodes::byte_pool::BytePool;
use nodes::node::{NONE, Node};
use nodes::row_pool::RowPool;
use std::array;
use std::process::Abort;
use std::test::Fail;
use tags::flat::FlatStore;
use tags::store::TagStore;

// Record k of a full hall: level k + 1, all children, and each eighth of the cells before the next.
fn full(k: u8) -> Node
    requires { k < 10 }
{
    Node {
        level: k + 1,
        mask: 255,
        links: [k.checked_sub(1).map_or(NONE, u16::from); 8],
        offsets: array::from_fn(|i| (i as u32) << (3 * k)),
    }
}

fn full_hall() -> [Node; 10] {
    array::from_fn(|k| full(k as u8))
}

// Ten records mark 2^30 cells. The list is judged without going to the cells; no store holds so many words.
#[test]
fn ten_levels(rt: HostRuntime) -> Result<(), Fail> {
    let mut rows = full_hall();
    assert_eq!(rt;
        adopted(
            10,
            RowPool::over(&mut rows, 10),
            FlatStore::new(&mut [0; 1])
        ),
        Err(Refusal::TagsUnfit)
    );
    rows = full_hall();
    rows[9].level = 9;
    assert_eq!(rt;
        adopted(
            10,
            RowPool::over(&mut rows, 10),
            FlatStore::new(&mut [0; 1])
        ),
        Err(Refusal::NotSealed)
    );
    Ok(())
}

// The first four of them mark 4,096 cells.
fn four_levels(rt: &impl Abort, words: usize, last: u32) -> Result<(), Refusal> {
    let mut rows = full_hall();
    let mut numbers = [0; 4096];
    let mut store = FlatStore::new(&mut numbers);
    for word in (1..=words).map(|n| if n < words { 7 } else { last }) {
        assert_eq!(rt; store.add(word), Ok(()));
    }
    adopted(4, RowPool::over(&mut rows, 4), store)
}

#[test]
fn tags_must_fit(rt: HostRuntime) -> Result<(), Fail> {
    assert_eq!(rt; four_levels(&rt, 4096, 1999), Ok(()));
    assert_eq!(rt; four_levels(&rt, 4096, 2000), Err(Refusal::TagsUnfit));
    assert_eq!(rt; four_levels(&rt, 4095, 1999), Err(Refusal::TagsUnfit));
    assert_eq!(rt; four_levels(&rt, 0, 0), Err(Refusal::TagsUnfit));
    Ok(())
}

#[test]
fn no_records(rt: HostRuntime) -> Result<(), Fail> {
    let mut rows = [Node::blank(); 1];
    let mut numbers = [0; 1];
    assert_eq!(rt;
        adopted(10, RowPool::empty(&mut rows), FlatStore::new(&mut numbers)),
        Ok(())
    );
    let mut store = FlatStore::new(&mut numbers);
    assert_eq!(rt; store.add(7), Ok(()));
    assert_eq!(rt;
        adopted(1, RowPool::empty(&mut rows), store),
        Err(Refusal::TagsUnfit)
    );
    Ok(())
}

#[test]
fn levels_come_first(rt: HostRuntime) -> Result<(), Fail> {
    assert_eq!(rt;
        adopted(
            11,
            RowPool::over(&mut full_hall(), 10),
            FlatStore::new(&mut [0; 1])
        ),
        Err(Refusal::Levels)
    );
    assert_eq!(rt;
        adopted(
            1,
            BytePool::over(&mut [255; 100], 2),
            FlatStore::new(&mut [0; 1])
        ),
        Err(Refusal::NotSealed)
    );
    Ok(())
}
