// The memory of a palette store.
ghost use Rattle.std.specs.Prelude.{◌≡◌, length};
ghost use Rattle.tags.specs.Palettes.{block_words, palette_places};

// The words of a block.
pub const BLOCK_WORDS: usize = 64;

// The places of a block's palette: so many different words it can hold.
pub const PALETTE_PLACES: usize = 16;

// A palette of words, and an index into it for each word of the block.
#[derive(Clone, Copy, PartialEq, Eq, Debug)]
pub struct Block {
    pub palette: [u32; PALETTE_PLACES],
    pub indices: [u8; BLOCK_WORDS],
    ghost places: { length palette ≡ palette_places },
    ghost spots: { length indices ≡ block_words },
}
