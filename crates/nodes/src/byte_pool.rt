// The byte pool: a pool over lent bytes, 50 a record.
ghost use Rattle.std.specs.Prelude.{◌*◌, ◌/◌};
ghost use Rattle.std.proofs.Common.{refl, lit<};
ghost use Rattle.nodes.specs.Format.{node_bytes, read_node, read_nodes, length_nodes};
ghost use Rattle.nodes.specs.Places.{nodes_more, nodes_own, bytes_hold};
ghost use Rattle.nodes.specs.Pools.{bytes};

use crate::format::{LINKS_AT, OFFSETS_AT, get_node, nth_field, put_node};
use crate::lent_pool::Pool;
use crate::node::{NODE_BYTES, Node};
use crate::place::Place;

pub type BytePool<'a> = Pool<'a, u8>;

// A place is a byte of a written record. Those of no record are 0, and 50 zeros are a blank record.
impl Place for u8 {
    const WIDTH: usize = NODE_BYTES;

    ghost WIDTH = { node_bytes };

    ghost span = { λ n. node_bytes * n };

    ghost room = { λ n. n / node_bytes };

    ghost empty = { 0 };

    ghost node_in = { read_node };

    ghost nodes_in = { read_nodes };

    ghost shown = { bytes };

    ghost wide = { lit< tt };

    ghost spans = { λ _. refl };

    ghost rooms = { λ _. refl };

    ghost long = { λ n m _. length_nodes n m };

    ghost more = { λ n m _. nodes_more n m };

    ghost own = { nodes_own };

    ghost fronts = { λ _ _. refl };

    ghost shows = { bytes_hold };

    ghost copied = { λ x y e. e };

    ghost sure = { λ _. tt };

    fn empty() -> u8 {
        0
    }

    fn node(places: &[u8]) -> Node {
        get_node(places)
    }

    #[tactic(auto, unfolding(crate::specs::Format::read_node))]
    fn level(places: &[u8]) -> u8 {
        places[0]
    }

    #[tactic(auto, unfolding(crate::specs::Format::read_node))]
    fn mask(places: &[u8]) -> u8 {
        places[1]
    }

    fn link(places: &[u8], i: usize) -> u16 {
        nth_field(places, LINKS_AT, i)
    }

    fn offset(places: &[u8], i: usize) -> u32 {
        nth_field(places, OFFSETS_AT, i)
    }

    fn put(places: &mut [u8], node: &Node) {
        put_node(places, node);
    }
}
