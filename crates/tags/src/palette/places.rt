// The places of a block's palette: what an index names, and where a word can go.
ghost use Rattle.std.specs.Prelude.{◌≡◌, ℕ, ◌<◌, ◌≤◌, true, false, replicate, MatchOption, OnOk, OnErr, IsOkUnless, slice_index};
ghost use Rattle.cells.specs.declared.refusal.Refusal.TheVariants.{StoreFull};
ghost use Rattle.tags.specs.Palettes.{block_words, palette_places};
ghost use Rattle.tags.specs.Blocks.{place_of, spelled};
ghost use Rattle.tags.specs.Spots.{FreePlace, Spot, Full, Put};

use super::block::{BLOCK_WORDS, Block, PALETTE_PLACES};
use cells::refusal::Refusal;
use cells::row::{Items, search};

// The place that an index names.
fn place_of(index: u8) -> usize
    ensures { result ≡ place_of index }
{
    usize::from(index) % PALETTE_PLACES
}

impl Block {
    // A block of zeros.
    pub fn blank() -> Block
        ensures palette { result.palette ≡ replicate palette_places 0 }
        ensures indices { result.indices ≡ replicate block_words 0 }
    {
        Block {
            palette: [0; PALETTE_PLACES],
            indices: [0; BLOCK_WORDS],
        }
    }

    // The word that index i stands for.
    #[tactic(auto, using(crate::proofs::Spelling::spelled_at))]
    pub(super) fn word(&self, i: usize) -> u32
        requires { i < block_words }
        ensures { result ≡ slice_index (spelled self.now) i }
    {
        self.palette[place_of(self.indices[i])]
    }

    // The lowest place that none of the first indices names, index i left out.
    fn free_place(&self, used: usize, i: usize) -> Option<usize>
        requires { used ≤ block_words }
        ensures { FreePlace self.now.indices i used result }
    {
        let mut named = [false; PALETTE_PLACES];
        for (n, index) in self.indices[..used].iter().enumerate() {
            if n != i {
                named[place_of(*index)] = true;
            }
        }
        search(&Items { items: &named }, &false)
    }

    // The place that has the word, else a free one.
    fn place_for(&self, used: usize, i: usize, word: u32) -> Option<usize>
        requires { used ≤ block_words }
        ensures { MatchOption result (Full self.now used i word) (Spot self.now used i word) }
    {
        let row = Items {
            items: &self.palette,
        };
        search(&row, &word).or_else(|| self.free_place(used, i))
    }

    // Puts a word at index i, beside the words of the first indices, if there is room. The two numbers are handed on as they
    // are: a struct of both would be made once and taken apart at once.
    pub(super) fn put(&mut self, used: usize, i: usize, word: u32) -> Result<(), Refusal>
        requires { (used ≤ block_words) × (i < block_words) }
        ensures put { OnOk result (Put self.old self.new used i word) }
        ensures full { OnErr result (Full self.old used i word) }
        ensures kept { OnErr result (self.new ≡ self.old) }
        ensures refusal { IsOkUnless result StoreFull }
    {
        let place = self.place_for(used, i, word).ok_or(Refusal::StoreFull)?;
        self.palette[place] = word;
        self.indices[i] = place as u8;
        Ok(())
    }
}
