// The list of the hall of 2 levels with the cells 0, 8 and 17, damaged in one field: it is refused with 9,
// unless it is the list that the cells it marks seal to.
ghost use Rattle.std.specs.Prelude.{◌<◌};

use crate::adopted::adopted;
use cells::refusal::Refusal;
use nodes::node::{NONE, Node};
use nodes::row_pool::RowPool;
use std::process::Abort;
use std::test::Fail;
use tags::flat::FlatStore;
use tags::speed::Speed;
use voxels::map::Map;

type Three = [Node; 3];

// The sealed list.
fn sound() -> Three {
    let leaf = Node {
        level: 1,
        links: [NONE; 8],
        ..Node::blank()
    };
    let root = Node {
        level: 2,
        mask: 7,
        links: [0, 0, 1, NONE, NONE, NONE, NONE, NONE],
        offsets: [0, 1, 2, 0, 0, 0, 0, 0],
    };
    [Node { mask: 1, ..leaf }, Node { mask: 2, ..leaf }, root]
}

// Whether a mask marks a child.
fn has(mask: u8, child: u32) -> bool {
    (mask >> (child % 8)) % 2 == 1
}

// Whether the list marks a code: a plain walk.
fn marks(list: &Three, code: u32) -> bool {
    let [first, second, root] = *list;
    let child = code / 8 % 8;
    let link = usize::from(root.links[child as usize]);
    root.level == 2
        && has(root.mask, child)
        && [first, second]
            .get(link)
            .is_some_and(|leaf| leaf.level == 1 && has(leaf.mask, code % 8))
}

// Whether the cells that the list marks seal to it.
fn sealed_again(list: &Three) -> Result<bool, Refusal> {
    let mut rows = [Node::blank(); 9];
    let mut words = [0; 64];
    let mut map = Map::open(2, RowPool::empty(&mut rows), FlatStore::new(&mut words));
    for code in (0..64).filter(|code| marks(list, *code)) {
        map.place(code, Speed::new(0)?)?;
    }
    map.seal()?;
    Ok(map.node_count() == list.len() && (0..list.len()).all(|n| map.node(n) == list[n]))
}

// Adopt takes the list exactly if the cells that it marks seal to it, whatever it says of the tags.
fn judged_right(rt: &impl Abort, list: &Three) -> Result<bool, Fail> {
    let mut given = *list;
    let verdict = adopted(2, RowPool::over(&mut given, 3), FlatStore::new(&mut [0; 1]));
    let taken = verdict != Err(Refusal::NotSealed);
    assert_eq!(rt; taken, sealed_again(list)?);
    Ok(taken)
}

// So it does after a change of record n of the sound list.
fn judged_right_with<F: FnOnce(&mut Node)>(rt: &impl Abort, n: usize, change: F) -> Result<(), Fail>
    requires record { n < 3 }
    requires change { F.IsAlwaysCallable change }
{
    let mut list = sound();
    change(&mut list[n]);
    let _ = judged_right(rt, &list)?;
    Ok(())
}

#[test]
fn the_sound_list(rt: HostRuntime) -> Result<(), Fail> {
    assert!(rt; judged_right(&rt, &sound())?);
    Ok(())
}

#[test]
fn any_level_or_mask(rt: HostRuntime) -> Result<(), Fail> {
    for n in 0..3 {
        for value in 0..=u8::MAX {
            judged_right_with(&rt, n, |node| node.level = value)?;
            judged_right_with(&rt, n, |node| node.mask = value)?;
        }
    }
    Ok(())
}

#[test]
fn some_links_and_offsets(rt: HostRuntime) -> Result<(), Fail> {
    for n in 0..3 {
        for i in 0..8 {
            for link in [0, 1, 2, 3, 4, 255, 256, 32768, 65534, NONE] {
                judged_right_with(&rt, n, |node| node.links[i] = link)?;
            }
            for offset in [0, 1, 2, 3, 8, 255, 65536, 1 << 31, u32::MAX] {
                judged_right_with(&rt, n, |node| node.offsets[i] = offset)?;
            }
        }
    }
    Ok(())
}

// Records in another order, one at the end that is no root, one twice, one that no link reaches.
#[test]
fn other_orders(rt: HostRuntime) -> Result<(), Fail> {
    let [first, second, root] = sound();
    let linked = |a, b, c| Node {
        links: [a, b, c, NONE, NONE, NONE, NONE, NONE],
        ..root
    };
    assert!(rt; !judged_right(&rt, &[second, first, linked(1, 1, 0)])?);
    assert!(rt;
        judged_right(&rt, &[second, first, root])?,
        "the list of the cells 1, 9 and 16"
    );
    assert!(rt; !judged_right(&rt, &[first, root, second])?);
    assert!(rt; !judged_right(&rt, &[first, first, root])?);
    assert!(rt; !judged_right(&rt, &[first, second, linked(0, 0, 0)])?);
    Ok(())
}
