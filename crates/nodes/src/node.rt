// Node records: a level, a mask, and of each of eight children a link and an offset.
ghost use Rattle.std.specs.Prelude.{◌≡◌, replicate};
ghost use Rattle.nodes.specs.Records.{blank, children};
ghost use Rattle.nodes.specs.Format.{node_bytes, written};

use cells::row::Entry;

// A link with this number leads nowhere.
pub const NONE: u16 = 65_535;

// A record has this many children.
pub const CHILDREN: usize = 8;

// A written record takes this many bytes.
pub const NODE_BYTES: usize = 50;

// A pool holds at most this many records, so that no record has the number of the link that leads nowhere.
pub const MOST_NODES: usize = 65_535;

// Bit i of the mask, link i and offset i are those of child i. Links and offsets are two lists and not eight pairs,
// so that a record takes 52 bytes of the unit's memory and not 68.
#[derive(Clone, Copy, PartialEq, Eq, Debug)]
pub struct Node {
    pub level: u8,
    pub mask: u8,
    pub links: [u16; CHILDREN],
    pub offsets: [u32; CHILDREN],
}

impl Node {
    // The record of zeros, its links too. It is written as zeros.
    #[tactic(auto, unfolding(crate::specs::Format::written, crate::specs::Format::bytes_of))]
    pub fn blank() -> Node
        ensures value { result ≡ blank }
        ensures zeros { written result ≡ replicate node_bytes 0 }
    {
        Node {
            level: 0,
            mask: 0,
            links: [0; CHILDREN],
            offsets: [0; CHILDREN],
        }
    }
}

// Two records are the same if they are equal in all four parts.
impl Entry for Node {
    fn same(&self, other: &Node) -> bool {
        self == other
    }
}
