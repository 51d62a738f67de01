// The row pool: a pool over a lent slice of node records.
ghost use Rattle.std.specs.Prelude.{take, slice_index_or};
ghost use Rattle.std.proofs.Common.{refl, sym, lit<};
ghost use Rattle.std.proofs.Math.Nat.{one-mul, div-one, le_refl};
ghost use Rattle.std.proofs.lemmas.List.{length-take-le, take-take};
ghost use Rattle.nodes.specs.Records.{blank};
ghost use Rattle.nodes.specs.Places.{rows_more};
ghost use Rattle.nodes.specs.Pools.{records};

use crate::lent_pool::Pool;
use crate::node::Node;
use crate::place::Place;

pub type RowPool<'a> = Pool<'a, Node>;

// A place is a record.
impl Place for Node {
    const WIDTH: usize = 1;

    ghost WIDTH = { 1 };

    ghost span = { λ n. n };

    ghost room = { λ n. n };

    ghost empty = { blank };

    ghost node_in = { λ places. slice_index_or places 0 blank };

    ghost nodes_in = { take };

    ghost shown = { records };

    ghost wide = { lit< tt };

    ghost spans = { λ n. sym (one-mul n) };

    ghost rooms = { λ n. sym (div-one n) };

    ghost long = { length-take-le };

    ghost more = { rows_more };

    ghost own = { λ n m _. take-take n n m (le_refl n) };

    ghost fronts = { λ _ _. refl };

    ghost shows = { λ _ _ _ _ e. e };

    ghost copied = { λ x y e. e };

    ghost sure = { λ _. tt };

    fn empty() -> Node {
        Node::blank()
    }

    fn node(places: &[Node]) -> Node {
        places[0]
    }

    fn level(places: &[Node]) -> u8 {
        places[0].level
    }

    fn mask(places: &[Node]) -> u8 {
        places[0].mask
    }

    fn link(places: &[Node], i: usize) -> u16 {
        places[0].links[i]
    }

    fn offset(places: &[Node], i: usize) -> u32 {
        places[0].offsets[i]
    }

    fn put(places: &mut [Node], node: &Node) {
        places[0] = *node;
    }
}
