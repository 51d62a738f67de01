// Two maps of one hall, the one over records with speed limits and the other over bytes with loads.
// Tags have no part in a node list, so both maps have the same one.

#![tactic(auto)]

mod compare;
mod fill;
mod show;

use compare::same_nodes;
use fill::{Spot, fill};
use nodes::byte_pool::BytePool;
use nodes::node::Node;
use nodes::pool::NodePool;
use nodes::row_pool::RowPool;
use show::{print_answer, print_looks, print_nodes};
use std::io;
use tags::flat::FlatStore;
use tags::load::Load;
use tags::palette::PaletteStore;
use tags::palette::block::Block;
use tags::speed::Speed;
use tags::store::TagStore;
use voxels::map::Map;

const LEVELS: u32 = 2;

// 50 bytes for each of eight records.
const BYTES: usize = 400;

// Makes both maps, prints what they hold, and compares their node lists.
fn make_both<P: NodePool + Drop, S: TagStore + Drop, Q: NodePool + Drop, T: TagStore + Drop>(
    rt: &HostRuntime,
    rows: P,
    numbers: S,
    bytes: Q,
    blocks: T,
) -> io::Result<()> {
    let mut limits: Map<P, S, Speed> = Map::open(LEVELS, rows, numbers);
    let mut loads: Map<Q, T, Load> = Map::open(LEVELS, bytes, blocks);
    print_answer(rt, "limits", fill(&mut limits, Spot::speed))?;
    print_answer(rt, "loads", fill(&mut loads, Spot::load))?;
    print_nodes(rt, &limits)?;
    print_looks(rt, "limits", &limits)?;
    print_looks(rt, "loads", &loads)?;
    if same_nodes(&limits, &loads) {
        println!(rt; "both maps have the same node list")
    } else {
        println!(rt; "the node lists differ")
    }
}

fn main(rt: HostRuntime) -> io::Result<()> {
    let mut rows = [Node::blank(); 8];
    let mut numbers = [0; 8];
    let mut bytes = [0; BYTES];
    let mut blocks = [Block::blank()];
    make_both(
        &rt,
        RowPool::empty(&mut rows),
        FlatStore::new(&mut numbers),
        BytePool::empty(&mut bytes),
        PaletteStore::new(&mut blocks),
    )
}
