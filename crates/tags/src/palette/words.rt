// The palette store as a store of words.
ghost use Rattle.std.specs.Prelude.{◌≡◌, not, [], ◌∷◌, ◌++◌, length, if◌then◌else◌, slice_set};
ghost use Rattle.std.specs.List.{slice_get};
ghost use Rattle.cells.specs.Refusals.{answer, refuse_if, gives};
ghost use Rattle.tags.specs.Stores.{can_add, can_change};
ghost use Rattle.tags.specs.Palettes.{palette_admits, palette_none, palette_most};
ghost use Rattle.tags.specs.Blocks.{palette_words};

use super::PaletteStore;
use super::block::{BLOCK_WORDS, Block};
use crate::store::{MOST_WORDS, TagStore};
use cells::refusal::Refusal;

impl<'a> PaletteStore<'a> {
    // An empty store over lent blocks, whatever they hold.
    #[tactic(auto, using(crate::specs::Palettes::palette_none))]
    pub fn new(blocks: &'a mut [Block]) -> PaletteStore<'a>
        ensures words { palette_words result.blocks.now result.count ≡ [] }
        ensures rule { palette_admits (length result.blocks.now) ≡ palette_admits (length blocks.old) }
    {
        PaletteStore { blocks, count: 0 }
    }
}

impl TagStore for PaletteStore<'_> {
    ghost words = { λ s. palette_words s.blocks.now s.count };

    ghost admits = { λ s. palette_admits (length s.blocks.now) };

    ghost laws = { record { none = λ s. palette_none (length s.blocks.now); most = λ s. palette_most (length s.blocks.now); held = λ s. s.held } };

    #[tactic(auto, using(crate::proofs::Spelling::words_long))]
    fn count(&self) -> usize {
        self.count // words in use
    }

    fn word(&self, n: usize) -> Option<u32> {
        if n >= self.count {
            return None;
        }
        let blocks = &*self.blocks;
        Some(blocks[n / BLOCK_WORDS].word(n % BLOCK_WORDS))
    }

    #[tactic(auto, using(crate::proofs::PaletteTakes::no_room))]
    fn add(&mut self, word: u32) -> Result<(), Refusal> {
        let room = self.blocks.len().saturating_mul(BLOCK_WORDS);
        if self.count >= room.min(MOST_WORDS) {
            return Err(Refusal::StoreFull);
        }
        let used = self.count % BLOCK_WORDS;
        let blocks = &mut *self.blocks;
        blocks[self.count / BLOCK_WORDS].put(used, used, word)?;
        self.count += 1;
        Ok(())
    }

    fn change(&mut self, n: usize, word: u32) -> Result<(), Refusal> {
        if n >= self.count {
            return Err(Refusal::StoreFull);
        }
        let k = n / BLOCK_WORDS;
        let used = BLOCK_WORDS.min(self.count - k * BLOCK_WORDS);
        let blocks = &mut *self.blocks;
        blocks[k].put(used, n % BLOCK_WORDS, word)
    }

    #[tactic(auto, using(crate::specs::Palettes::palette_none))]
    fn empty(&mut self) {
        self.count = 0;
    }
}
