// Records as bytes: level, mask, links and offsets, each number with its low byte first.
ghost use Rattle.std.specs.Prelude.{◌≡◌, ◌+◌, ◌*◌, ◌^◌, ◌<◌, ◌≤◌, ℕ, length, take, drop, map};
ghost use Rattle.std.specs.List.{flat_map, AllByRecursion};
ghost use Rattle.nodes.specs.Records.{children};
ghost use Rattle.nodes.specs.Format.{Fitting, bytes_of, node_bytes, read_node, value_of, values_of, written};

use crate::node::{CHILDREN, NODE_BYTES, Node};

// A written link takes this many bytes.
pub(crate) const LINK_BYTES: usize = 2;

// A written offset takes this many bytes.
pub(crate) const OFFSET_BYTES: usize = 4;

// The links of a written record begin at this byte, behind level and mask.
pub(crate) const LINKS_AT: usize = 2;

// The offsets begin behind the links.
pub(crate) const OFFSETS_AT: usize = LINKS_AT + LINK_BYTES * CHILDREN;

// Writes a number over any bytes, low byte first. What does not fit them is left out.
#[tactic(auto, using(crate::proofs::LowFirst::bytes_more), unfolding(crate::specs::Format::bytes_of))]
pub fn write_number(bytes: &mut [u8], number: u32)
    ensures { bytes.new ≡ bytes_of (length bytes.old) number }
{
    let mut rest = number;
    for byte in bytes.iter_mut() {
        *byte = (rest % 256) as u8;
        rest /= 256;
    }
}

// A link or an offset: a number in a record.
pub(crate) trait Field: Copy + Default {
    // How many bytes it is written in.
    const WIDTH: usize;

    ghost WIDTH: { ℕ };

    // the number that it is
    ghost number: { Self → ℕ };

    // The field that its bytes write.
    fn read(bytes: &[u8]) -> Self
        requires { length bytes.now ≡ WIDTH }
        ensures { number result ≡ value_of bytes.now };

    // Writes the field over its bytes, which it fits.
    fn write(self, bytes: &mut [u8])
        requires { length bytes.old ≡ WIDTH }
        ensures bytes { bytes.new ≡ bytes_of WIDTH (number self) }
        ensures fits { number self < 256 ^ WIDTH };
}

impl Field for u16 {
    const WIDTH: usize = LINK_BYTES;

    ghost WIDTH = { 2 };

    ghost number = { λ link. link };

    #[tactic(auto, using(crate::proofs::LowFirst::value_two))]
    fn read(bytes: &[u8]) -> u16 {
        u16::from_le_bytes([bytes[0], bytes[1]])
    }

    fn write(self, bytes: &mut [u8]) {
        write_number(bytes, u32::from(self));
    }
}

impl Field for u32 {
    const WIDTH: usize = OFFSET_BYTES;

    ghost WIDTH = { 4 };

    ghost number = { λ offset. offset };

    #[tactic(auto, using(crate::proofs::LowFirst::value_four))]
    fn read(bytes: &[u8]) -> u32 {
        u32::from_le_bytes([bytes[0], bytes[1], bytes[2], bytes[3]])
    }

    fn write(self, bytes: &mut [u8]) {
        write_number(bytes, self);
    }
}

// Field i of those that begin at byte `from`.
pub(crate) fn nth_field<F: Field>(bytes: &[u8], from: usize, i: usize) -> F
    requires { from + (F.WIDTH * i + F.WIDTH) ≤ length bytes.now }
    ensures { F.number result ≡ value_of (take F.WIDTH (drop (from + F.WIDTH * i) bytes.now)) }
{
    let at = from + F::WIDTH * i;
    F::read(&bytes[at..at + F::WIDTH])
}

// The eight fields that the bytes write.
#[tactic(auto, unfolding(crate::specs::Format::values_of))]
fn fields<F: Field>(bytes: &[u8]) -> [F; CHILDREN]
    requires { length bytes.now ≡ F.WIDTH * children }
    ensures { map F.number result ≡ values_of F.WIDTH children bytes.now }
{
    // `array::from_fn` was tried: what it gives over any type of field stayed open in the proof
    let mut fields = [F::default(); CHILDREN];
    for (i, field) in fields.iter_mut().enumerate() {
        let at = F::WIDTH * i;
        *field = F::read(&bytes[at..at + F::WIDTH]);
    }
    fields
}

// Writes eight fields over the bytes.
fn put_fields<F: Field>(bytes: &mut [u8], fields: &[F; CHILDREN])
    requires { length bytes.old ≡ F.WIDTH * children }
    ensures bytes { bytes.new ≡ flat_map (λ field. bytes_of F.WIDTH (F.number field)) fields.now }
    ensures eight { length fields.now ≡ children }
    ensures each { AllByRecursion (λ field. F.number field < 256 ^ F.WIDTH) fields.now }
{
    for (i, field) in fields.iter().enumerate() {
        let at = F::WIDTH * i;
        field.write(&mut bytes[at..at + F::WIDTH]);
    }
}

// The record that 50 bytes write.
pub(crate) fn get_node(bytes: &[u8]) -> Node
    requires { length bytes.now ≡ node_bytes }
    ensures value { result ≡ read_node bytes.now }
    ensures fitting { Fitting result }
    ensures back { written result ≡ bytes.now }
{
    Node {
        level: bytes[0],
        mask: bytes[1],
        links: fields(&bytes[LINKS_AT..OFFSETS_AT]),
        offsets: fields(&bytes[OFFSETS_AT..NODE_BYTES]),
    }
}

// Writes a record over 50 bytes.
pub(crate) fn put_node(bytes: &mut [u8], node: &Node)
    requires { length bytes.old ≡ node_bytes }
    ensures bytes { bytes.new ≡ written node.now }
    ensures fitting { Fitting node.now }
    ensures back { read_node bytes.new ≡ node.now }
{
    bytes[0] = node.level;
    bytes[1] = node.mask;
    put_fields(&mut bytes[LINKS_AT..OFFSETS_AT], &node.links);
    put_fields(&mut bytes[OFFSETS_AT..NODE_BYTES], &node.offsets);
}

impl Node {
    // The record that the bytes write. Any 50 bytes write one, and it is written as these bytes. Both ways have a name that says bytes,
    // as the library's own have, since a `From` would not.
    pub fn from_bytes(bytes: &[u8; NODE_BYTES]) -> Node
        ensures value { result ≡ read_node bytes.now }
        ensures fitting { Fitting result }
        ensures back { written result ≡ bytes.now }
    {
        get_node(bytes)
    }

    // The record as bytes, which are read as this record.
    pub fn to_bytes(&self) -> [u8; NODE_BYTES]
        ensures value { result ≡ written self.now }
        ensures back { read_node result ≡ self.now }
    {
        let mut bytes = [0; NODE_BYTES];
        put_node(&mut bytes, self);
        bytes
    }
}
