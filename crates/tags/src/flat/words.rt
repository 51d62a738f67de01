// The flat store as a store of words.
ghost use Rattle.std.specs.Prelude.{◌≡◌, not, [], ◌∷◌, ◌++◌, length, if◌then◌else◌, slice_set};
ghost use Rattle.std.specs.List.{slice_get};
ghost use Rattle.cells.specs.Refusals.{answer, refuse_if, gives};
ghost use Rattle.tags.specs.Stores.{can_add, can_change};
ghost use Rattle.tags.specs.Flats.{flat_words, flat_admits, flat_none, flat_most, flat_held};

use super::FlatStore;
use crate::store::{MOST_WORDS, TagStore};
use cells::refusal::Refusal;

impl<'a> FlatStore<'a> {
    // An empty store over lent numbers, whatever they hold.
    pub fn new(numbers: &'a mut [u32]) -> FlatStore<'a>
        ensures words { flat_words result.numbers.now result.count ≡ [] }
        ensures rule { flat_admits (length result.numbers.now) ≡ flat_admits (length numbers.old) }
    {
        FlatStore { numbers, count: 0 }
    }
}

impl TagStore for FlatStore<'_> {
    ghost words = { λ s. flat_words s.numbers.now s.count };

    ghost admits = { λ s. flat_admits (length s.numbers.now) };

    ghost laws = { record { none = λ s. flat_none (length s.numbers.now); most = λ s. flat_most (length s.numbers.now); held = λ s. flat_held s.numbers.now s.count s.fits } };

    fn count(&self) -> usize {
        self.count // words in use
    }

    fn word(&self, n: usize) -> Option<u32> {
        self.numbers[..self.count].get(n).copied()
    }

    fn add(&mut self, word: u32) -> Result<(), Refusal> {
        if self.count >= self.numbers.len().min(MOST_WORDS) {
            return Err(Refusal::StoreFull);
        }
        self.numbers[self.count] = word;
        self.count += 1;
        Ok(())
    }

    fn change(&mut self, n: usize, word: u32) -> Result<(), Refusal> {
        if n >= self.count {
            return Err(Refusal::StoreFull);
        }
        self.numbers[n] = word;
        Ok(())
    }

    fn empty(&mut self) {
        self.count = 0;
    }
}
