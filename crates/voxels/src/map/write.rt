// Writing a sealed map as bytes.
ghost use Rattle.std.specs.Prelude.{◌≡◌};
ghost use Rattle.cells.specs.Refusals.{answer};
ghost use Rattle.voxels.specs.Shown.{shown, Accepted, Refused};
ghost use Rattle.voxels.specs.Writes.{NodesBack, WordsBack, nodes_written, too_short, words_written, write_answer};

use super::Map;
use crate::write::{write_nodes, write_words};
use cells::refusal::Refusal;
use nodes::node::NODE_BYTES;
use nodes::pool::NodePool;
use tags::kind::TagKind;
use tags::store::TagStore;

impl<P: NodePool, S: TagStore, K: TagKind> Map<P, S, K> {
    // Whether one of the buffers is too short for the map.
    fn outgrows(&self, nodes: &[u8], tags: &[u8]) -> bool
        ensures { result ≡ too_short (shown P.NodePool S.TagStore self.now) K.TagKind.WIDTH nodes.now tags.now }
    {
        let records = NODE_BYTES * self.pool.count();
        let words = K::written_width() * self.store.count();
        nodes.len() < records || tags.len() < words
    }

    // Writes the records into the first buffer and the words into the second. What lies behind them stays.
    pub fn write(&self, nodes: &mut [u8], tags: &mut [u8]) -> Result<(), Refusal>
        ensures answers { answer result ≡ write_answer (shown P.NodePool S.TagStore self.now) K.TagKind.WIDTH nodes.old tags.old }
        ensures kept { Refused (answer result) ((nodes.new ≡ nodes.old) × (tags.new ≡ tags.old)) }
        ensures nodes { Accepted (answer result) (nodes.new ≡ nodes_written (shown P.NodePool S.TagStore self.now) nodes.old) }
        ensures tags { Accepted (answer result) (tags.new ≡ words_written (shown P.NodePool S.TagStore self.now) K.TagKind.WIDTH tags.old) }
        ensures back { Accepted (answer result) (NodesBack (shown P.NodePool S.TagStore self.now) nodes.new) }
        ensures tells { WordsBack K.TagKind.word_of K.TagKind.WIDTH (shown P.NodePool S.TagStore self.now) tags.new (answer result) }
    {
        self.plain.sealed()?;
        if self.outgrows(nodes, tags) {
            return Err(Refusal::BufferShort);
        }
        write_nodes(&self.pool, nodes);
        write_words(&self.store, K::written_width(), tags);
        Ok(())
    }
}
