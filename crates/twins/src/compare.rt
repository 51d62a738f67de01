// Whether two maps have the same node list, whatever pools, stores and kinds they have.
ghost use Rattle.std.specs.Prelude.{◌≡◌, Decides};
ghost use Rattle.voxels.specs.Shown.{shown};

use nodes::pool::NodePool;
use tags::kind::TagKind;
use tags::store::TagStore;
use voxels::map::Map;

// Compares record by record.
pub fn same_nodes<P: NodePool, S: TagStore, K: TagKind, Q: NodePool, T: TagStore, J: TagKind>(
    a: &Map<P, S, K>,
    b: &Map<Q, T, J>,
) -> bool
    ensures { Decides result ((shown P.NodePool S.TagStore a.now).nodes ≡ (shown Q.NodePool T.TagStore b.now).nodes) }
{
    a.node_count() == b.node_count() && (0..a.node_count()).all(|n| a.node(n) == b.node(n))
}
