// The palette store: blocks of 64 words, each of which names one of 16 words by a byte.
ghost use Rattle.std.specs.Prelude.{◌≡◌, ◌*◌, ◌≤◌, min, true, length};
ghost use Rattle.tags.specs.Stores.{most_words};
ghost use Rattle.tags.specs.Palettes.{block_words, palette_admits};
ghost use Rattle.tags.specs.Blocks.{palette_words, Tidy};

use self::block::Block;

pub mod block;
mod places;
pub mod words;

// Words over lent blocks, of which the first are in use. The count stands beside them, since the unit has no heap for a list.
#[derive(Drop)]
pub struct PaletteStore<'a> {
    blocks: &'a mut [Block],
    count: usize,
    ghost fits: { count ≤ min (length blocks.now * block_words) most_words },
    ghost held: { palette_admits (length blocks.now) (palette_words blocks.now count) ≡ true },
    ghost tidy: { Tidy blocks.now count },
}
