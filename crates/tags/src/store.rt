// What a tag store means: a list of words, and a fixed rule that says which lists it admits.
ghost use Rattle.std.specs.Prelude.{◌≡◌, ℕ, Bool, not, List, [], ◌∷◌, ◌++◌, length, if◌then◌else◌, slice_set};
ghost use Rattle.std.specs.List.{slice_get};
ghost use Rattle.cells.specs.Refusals.{answer, refuse_if, Answer.gives};
ghost use Rattle.tags.specs.Stores.{StoreLaws, can_add, can_change};

use cells::refusal::Refusal;

// The most words that any store admits.
pub const MOST_WORDS: usize = 16_777_216;

// A store of words. What its memory holds past the count is free.
pub trait TagStore {
    // the words, in their order
    ghost words: { Self → List ℕ };

    // the rule: whether the store admits a list of words
    ghost admits: { Self → List ℕ → Bool };

    // what holds of every rule, and of the list that a store holds
    ghost laws: { StoreLaws words admits };

    // How many words there are.
    fn count(&self) -> usize
        ensures { result ≡ length (words self.now) };

    // Word n, or absent past the end.
    fn word(&self, n: usize) -> Option<u32>
        ensures { result ≡ slice_get (words self.now) n };

    // Puts a word at the end.
    fn add(&mut self, word: u32) -> Result<(), Refusal>
        ensures answer { answer result ≡ refuse_if (not (can_add (admits self.old) (words self.old) word)) 7 (gives tt) }
        ensures words { words self.new ≡ (if can_add (admits self.old) (words self.old) word then words self.old ++ word ∷ [] else words self.old) }
        ensures rule { admits self.new ≡ admits self.old };

    // Puts another word in the place of word n.
    fn change(&mut self, n: usize, word: u32) -> Result<(), Refusal>
        ensures answer { answer result ≡ refuse_if (not (can_change (admits self.old) (words self.old) n word)) 7 (gives tt) }
        ensures words { words self.new ≡ (if can_change (admits self.old) (words self.old) n word then slice_set (words self.old) n word else words self.old) }
        ensures rule { admits self.new ≡ admits self.old };

    // Leaves no words.
    fn empty(&mut self)
        ensures words { words self.new ≡ [] }
        ensures rule { admits self.new ≡ admits self.old };
}
