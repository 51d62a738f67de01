// The places that lent memory consists of. A place is a record, or a byte of a written one.
ghost use Rattle.std.specs.Prelude.{◌≡◌, ℕ, ◌+◌, ◌*◌, ◌/◌, ◌<◌, ◌≤◌, List, [], ◌∷◌, ◌++◌, length, take, drop, slice_index};
ghost use Rattle.nodes.specs.declared.node.Node.{Node};
ghost use Rattle.nodes.specs.Records.{children};
ghost use Rattle.nodes.specs.Memory.{laid};
ghost use Rattle.nodes.specs.Pools.{Holds, Memory, front};

use crate::node::Node;

// A place of lent memory. Each record takes the same number of them.
pub(crate) trait Place: Copy {
    // How many places one record takes.
    const WIDTH: usize;

    ghost WIDTH: { ℕ };

    // how many places so many records take
    ghost span: { ℕ → ℕ };

    // how many whole records so many places hold
    ghost room: { ℕ → ℕ };

    // what stands in a place of no record
    ghost empty: { Self };

    // the record that its places hold
    ghost node_in: { List Self → Node };

    // the first n records that places hold
    ghost nodes_in: { ℕ → List Self → List Node };

    // places as a pool's caller knows them
    ghost shown: { List Self → Memory };

    // a record takes one place at least
    ghost wide: { 0 < WIDTH };

    // the two counts by the width
    ghost spans: { (n : ℕ) → span n ≡ WIDTH * n };

    ghost rooms: { (n : ℕ) → room n ≡ n / WIDTH };

    // places that hold n records hold n of them
    ghost long: { (n : ℕ) (m : List Self) → span n ≤ length m → length (nodes_in n m) ≡ n };

    // record n is the one that its own places hold
    ghost more: { (n : ℕ) (m : List Self) → span (n + 1) ≤ length m → nodes_in (n + 1) m ≡ nodes_in n m ++ node_in (take WIDTH (drop (span n) m)) ∷ [] };

    // the first records depend on their own places only
    ghost own: { (n : ℕ) (m : List Self) → span n ≤ length m → nodes_in n (take (span n) m) ≡ nodes_in n m };

    // the part of memory in which the first n records lie, as a caller knows it
    ghost fronts: { (n : ℕ) (m : List Self) → front n (shown m) ≡ shown (take (span n) m) };

    // memory that holds n records, blanks and what lies behind, as a caller knows it
    ghost shows: { (n p : ℕ) (m b : List Self) → m ≡ laid empty (take (span n) m) (span p) b → Holds (shown m) (nodes_in n m) p (shown b) };

    // What stands in a place of no record.
    fn empty() -> Self
        ensures { result ≡ empty };

    // The record that its places hold. They come as a slice: no array has an associated constant for its length.
    fn node(places: &[Self]) -> Node
        requires { length places.now ≡ WIDTH }
        ensures { result ≡ node_in places.now };

    // Its level.
    fn level(places: &[Self]) -> u8
        requires { length places.now ≡ WIDTH }
        ensures { result ≡ (node_in places.now).level };

    // Its mask.
    fn mask(places: &[Self]) -> u8
        requires { length places.now ≡ WIDTH }
        ensures { result ≡ (node_in places.now).mask };

    // Its link i.
    fn link(places: &[Self], i: usize) -> u16
        requires long { length places.now ≡ WIDTH }
        requires child { i < children }
        ensures { result ≡ slice_index (node_in places.now).links i };

    // Its offset i.
    fn offset(places: &[Self], i: usize) -> u32
        requires long { length places.now ≡ WIDTH }
        requires child { i < children }
        ensures { result ≡ slice_index (node_in places.now).offsets i };

    // Writes a record over the places of one.
    fn put(places: &mut [Self], node: &Node)
        requires { length places.old ≡ WIDTH }
        ensures { node_in places.new ≡ node.now };

    // a copy is the same
    ghost copied: { (x y : Self) → Self.is_clone x y → y ≡ x };

    // and copying never fails
    ghost sure: { (x : Self) → Self.is_infallible x };
}
