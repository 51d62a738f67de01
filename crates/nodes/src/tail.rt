// The search for an equal record in a pool.
ghost use Rattle.std.specs.Prelude.{drop};
ghost use Rattle.nodes.specs.Finding.{LowestFrom};

use crate::node::Node;
use crate::pool::NodePool;
use cells::row::{Row, search};

// The records of a pool from number `from` on, as a row: entry 0 is record `from`.
#[derive_where(Clone, Copy)]
pub struct TailRow<'a, P> {
    pub pool: &'a P,
    pub from: usize,
}

impl<P: NodePool> Row for TailRow<'_, P> {
    type Item = Node;

    ghost entries = { λ row. drop row.from (P.NodePool.nodes row.pool.now) };

    fn count(&self) -> usize {
        self.pool.count().saturating_sub(self.from)
    }

    fn entry(&self, n: usize) -> Option<Node> {
        // `then` was tried: its closure's call stayed open in the proof
        if n < self.count() {
            Some(self.pool.read(self.from + n))
        } else {
            None
        }
    }
}

// The lowest number, at or above `from`, of a record of the pool that equals the wanted one, or absent.
pub fn find<P: NodePool>(pool: &P, wanted: &Node, from: usize) -> Option<usize>
    ensures { LowestFrom from (P.NodePool.nodes pool.now) wanted.now result }
{
    search(&TailRow { pool, from }, wanted).map(|n| from + n)
}
