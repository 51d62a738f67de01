// The children of a sub-cube.
ghost use Rattle.std.specs.Prelude.{◌≡◌, ◌+◌, ◌%◌, ◌^◌, ◌<◌, ◌≤◌, ◌==◌, count_ones};
ghost use Rattle.cells.specs.Hall.{bit};
ghost use Rattle.cells.specs.SubCubes.{sub_cube};
ghost use Rattle.nodes.specs.Records.{children};

// A child by its number.
#[derive(Clone, Copy, PartialEq, Eq, Debug)]
pub(crate) struct Child {
    pub(crate) i: usize,
    ghost below: { i < children },
}

// The number of the sub-cube of level k that holds the code. Levels down from a hall's are plain numbers: they count loops.
pub(crate) fn sub_cube(k: u32, code: u32) -> u32
    requires { k ≤ 10 }
    ensures { result ≡ sub_cube k code }
{
    code >> (3 * k)
}

impl Child {
    // The child of its parent that a code's sub-cube of level k is.
    pub(crate) fn of(k: u32, code: u32) -> Child
        requires { k ≤ 10 }
        ensures { result.i ≡ sub_cube k code % 8 }
    {
        Child {
            i: sub_cube(k, code) as usize % 8,
        }
    }

    // Whether a mask has the child.
    pub(crate) fn is_in(self, mask: u8) -> bool
        ensures { result ≡ (bit self.i mask == 1) }
    {
        (mask >> self.i) % 2 == 1
    }

    // The mask with the child's bit, above the bits that are set.
    pub(crate) fn above(self, mask: u8) -> u8
        ensures { mask < 2 ^ self.i → result ≡ mask + 2 ^ self.i }
    {
        mask | (1 << self.i)
    }

    // How many bits of the mask are set below the child's.
    pub(crate) fn ones_below(self, mask: u8) -> u32
        ensures { result ≡ count_ones (mask % 2 ^ self.i) }
    {
        (mask & ((1 << self.i) - 1)).count_ones()
    }

    // The last child of a mask that is not 0.
    pub(crate) fn last_in(mask: u8) -> Child
        requires { 0 < mask }
        ensures { (2 ^ result.i ≤ mask) × (mask < 2 ^ (result.i + 1)) }
    {
        Child {
            i: 7 - mask.leading_zeros() as usize,
        }
    }
}
