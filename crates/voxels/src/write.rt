// A map as bytes: its records into one buffer, its words into another. Pools and stores are read by number, and so are the loops.
ghost use Rattle.std.specs.Prelude.{◌≡◌, ◌*◌, ◌≤◌, ◌++◌, length, drop};
ghost use Rattle.std.specs.List.{flat_map};
ghost use Rattle.nodes.specs.Format.{bytes_of, node_bytes, read_nodes, written};

use nodes::format::write_number;
use nodes::node::NODE_BYTES;
use nodes::pool::NodePool;
use tags::store::TagStore;

// Writes the records to the front of the buffer, 50 bytes each. What lies behind them stays.
pub(crate) fn write_nodes<P: NodePool>(pool: &P, buffer: &mut [u8])
    requires { node_bytes * length (P.NodePool.nodes pool.now) ≤ length buffer.old }
    ensures bytes { buffer.new ≡ flat_map written (P.NodePool.nodes pool.now) ++ drop (node_bytes * length (P.NodePool.nodes pool.now)) buffer.old }
    ensures back { read_nodes (length (P.NodePool.nodes pool.now)) buffer.new ≡ P.NodePool.nodes pool.now }
{
    for n in 0..pool.count() {
        let bytes = pool.read(n).to_bytes();
        let place = &mut buffer[NODE_BYTES * n..NODE_BYTES * n + NODE_BYTES];
        place.copy_from_slice(&bytes);
    }
}

// Writes the words to the front of the buffer, each in so many bytes. What lies behind them stays.
pub(crate) fn write_words<S: TagStore>(store: &S, width: usize, buffer: &mut [u8])
    requires { width * length (S.TagStore.words store.now) ≤ length buffer.old }
    ensures { buffer.new ≡ flat_map (bytes_of width) (S.TagStore.words store.now) ++ drop (width * length (S.TagStore.words store.now)) buffer.old }
{
    for n in 0..store.count() {
        if let Some(word) = store.word(n) {
            let at = width * n;
            write_number(&mut buffer[at..at + width], word);
        }
    }
}
