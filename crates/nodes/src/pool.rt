// The meaning of a pool of node records. Everything above is written against it and not against one pool.
ghost use Rattle.std.specs.Prelude.{◌≡◌, ℕ, ◌≤◌, List, length, take, slice_index_or};
ghost use Rattle.cells.specs.Refusals.{answer, refuse_if, gives};
ghost use Rattle.nodes.specs.declared.node.Node.{Node};
ghost use Rattle.nodes.specs.Records.{blank, of_child};
ghost use Rattle.nodes.specs.Pools.{Holds, Memory, added, front, full, most};

use crate::node::Node;
use cells::refusal::Refusal;

// A list of records and a fixed capacity, in memory that was lent.
pub trait NodePool {
    // the list
    ghost nodes: { Self → List Node };

    // how many records fit; no call changes it
    ghost capacity: { Self → ℕ };

    // the lent memory behind the capacity; no call changes it
    ghost behind: { Self → Memory };

    // the whole lent memory
    ghost memory: { Self → Memory };

    // the list never outgrows the capacity
    ghost within: { (p : Self) → length (nodes p) ≤ capacity p };

    // and the capacity is at most 65,535
    ghost bounded: { (p : Self) → capacity p ≤ most };

    // the lent memory holds the list, blanks up to the capacity, and what lies behind
    ghost holds: { (p : Self) → Holds (memory p) (nodes p) (capacity p) (behind p) };

    // The length of the list.
    fn count(&self) -> usize
        ensures { result ≡ length (nodes self.now) };

    // Record n, or a blank one past the end.
    fn read(&self, n: usize) -> Node
        ensures { result ≡ slice_index_or (nodes self.now) n blank };

    // The level of record n, or of a blank one past the end.
    fn level_at(&self, n: usize) -> u8
        ensures { result ≡ (slice_index_or (nodes self.now) n blank).level };

    // The mask of record n, or of a blank one past the end.
    fn mask_at(&self, n: usize) -> u8
        ensures { result ≡ (slice_index_or (nodes self.now) n blank).mask };

    // Link i of record n, or of a blank one past the end; 0 where i is no child.
    fn link_at(&self, n: usize, i: usize) -> u16
        ensures { result ≡ of_child i (slice_index_or (nodes self.now) n blank).links };

    // Offset i of record n, or of a blank one past the end; 0 where i is no child.
    fn offset_at(&self, n: usize, i: usize) -> u32
        ensures { result ≡ of_child i (slice_index_or (nodes self.now) n blank).offsets };

    // Puts a record at the end and answers its number. A full pool refuses, and nothing changes.
    // The memory of the records that were there stays as it was.
    fn add(&mut self, node: Node) -> Result<usize, Refusal>
        ensures answers { answer result ≡ refuse_if (full (nodes self.old) (capacity self.old)) 6 (gives (length (nodes self.old))) }
        ensures list { nodes self.new ≡ added (nodes self.old) (capacity self.old) node }
        ensures fixed { capacity self.new ≡ capacity self.old }
        ensures untouched { behind self.new ≡ behind self.old }
        ensures kept { front (length (nodes self.old)) (memory self.new) ≡ front (length (nodes self.old)) (memory self.old) };

    // Keeps the first n records and their memory. Nothing changes if there are no more than n.
    fn cut(&mut self, n: usize)
        ensures list { nodes self.new ≡ take n (nodes self.old) }
        ensures fixed { capacity self.new ≡ capacity self.old }
        ensures untouched { behind self.new ≡ behind self.old }
        ensures kept { front (length (nodes self.new)) (memory self.new) ≡ front (length (nodes self.new)) (memory self.old) };
}
