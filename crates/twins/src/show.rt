// What a map holds, as printed text.
use cells::hall::Cell;
use cells::refusal::Refusal;
use nodes::node::Node;
use nodes::pool::NodePool;
use std::io;
use tags::kind::TagKind;
use tags::store::TagStore;
use voxels::found::Found;
use voxels::map::Map;

// Prints how the making of a map ended.
pub fn print_answer(rt: &HostRuntime, name: &str, answer: Result<(), Refusal>) -> io::Result<()> {
    match answer {
        Ok(()) => println!(rt; "{name}: sealed"),
        Err(refusal) => println!(rt; "{name}: refused with {refusal}"),
    }
}

// Prints the records: number, level and mask, then link and offset of each child.
pub fn print_nodes<P: NodePool, S: TagStore, K: TagKind>(
    rt: &HostRuntime,
    map: &Map<P, S, K>,
) -> io::Result<()> {
    for n in 0..map.node_count() {
        let Node {
            level,
            mask,
            links,
            offsets,
        } = map.node(n);
        println!(rt;
            "record {n}: level {level}, mask {mask}, links {links:?}, offsets {offsets:?}"
        )?;
    }
    Ok(())
}

// Prints what stands at each cell of the hall's lowest diagonal.
pub fn print_looks<P: NodePool, S: TagStore, K: TagKind>(
    rt: &HostRuntime,
    name: &str,
    map: &Map<P, S, K>,
) -> io::Result<()> {
    for at in 0..5 {
        let cell = Cell {
            x: at,
            y: at,
            z: at,
        };
        // one call a line, so that output that ends early ends with a whole line
        match map.look(cell) {
            Ok(Some(Found { rank, tag })) => {
                let word = tag.word();
                println!(rt; "{name} at ({at}, {at}, {at}): rank {rank}, word {word}")?;
            }
            Ok(None) => println!(rt; "{name} at ({at}, {at}, {at}): free")?,
            Err(refusal) => println!(rt; "{name} at ({at}, {at}, {at}): refused with {refusal}")?,
        }
    }
    Ok(())
}
