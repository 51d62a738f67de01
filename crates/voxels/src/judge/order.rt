// The order of a delivered list: from the root down, children first, each record must be the next one.
ghost use Rattle.std.specs.Prelude.{◌≡◌, ◌+◌, ◌<◌, ◌≤◌, length, MatchOption, ◌≢◌};
ghost use Rattle.nodes.specs.Records.{none};
ghost use Rattle.dag.specs.Meets.{meet};
ghost use Rattle.dag.specs.Checks.{Here, LinksDown};
ghost use Rattle.voxels.specs.Judges.{Met};

use crate::child::Child;
use nodes::node::CHILDREN;
use nodes::pool::NodePool;

// Leaving record n, with so many records met before it: one more is met, and absent says that n is not the next one.
fn met_with(n: usize, met: usize) -> Option<usize>
    requires { n < none }
    ensures { MatchOption result (n ≢ met) (λ m. (n ≡ met) × (m ≡ n + 1)) }
{
    (n == met).then_some(n + 1)
}

// How many records have been met after record n of level k was gone into, where the first `before` were met before it.
// A record with a lower number was met, and so was all below it; any other must be the next one once its children are met, and absent says that one is not.
pub(super) fn met_after<P: NodePool>(pool: &P, k: u32, n: usize, before: usize) -> Option<usize>
    requires { (LinksDown (P.NodePool.nodes pool.now)) × ((Here (P.NodePool.nodes pool.now) k n) × (before ≤ length (P.NodePool.nodes pool.now))) }
    ensures { Met (length (P.NodePool.nodes pool.now)) (meet (P.NodePool.nodes pool.now) k n before) result }
{
    if k == 0 {
        return Some(before);
    }
    if n < before {
        return Some(before);
    }
    let mut met = before;
    for i in 0..CHILDREN {
        if (Child { i }).is_in(pool.mask_at(n)) {
            met = met_after(pool, k - 1, usize::from(pool.link_at(n, i)), met)?;
        }
    }
    met_with(n, met)
}
