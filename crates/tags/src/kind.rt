// What a kind of tags is, and what an order of strictness adds to it.
ghost use Rattle.std.specs.Prelude.{◌≡◌, ℕ, ◌^◌, ◌<◌, ◌≤◌, Bool, true, ◌||◌, Some, Option, nat_lt};
ghost use Rattle.cells.specs.Refusals.{answer, refuse_if, Answer.gives};

use cells::refusal::Refusal;

// A kind of tags. Every value of the type is a tag of the kind, and each tag has a word of 32 bits.
pub trait TagKind: Copy {
    // the written width of a tag in bytes
    const WIDTH: usize;

    ghost WIDTH: { ℕ };

    // the word of a tag
    ghost word_of: { Self → ℕ };

    // the tag that a word reads as, or absent
    ghost reading: { ℕ → Option Self };

    // The written width, as a call.
    fn written_width() -> usize
        ensures { result ≡ WIDTH }
    {
        Self::WIDTH
    }

    // The tag's word.
    fn word(self) -> u32
        ensures { result ≡ word_of self };

    // The tag whose word it is, or absent.
    fn read(word: u32) -> Option<Self>
        ensures { result ≡ reading word };

    // there and back is the same tag
    ghost back: { (t : Self) → reading (word_of t) ≡ Some t };

    // no other word reads as it
    ghost only: { (w : ℕ) (t : Self) → reading w ≡ Some t → word_of t ≡ w };

    // a tag is written in 1 to 4 bytes
    ghost bytes: { (1 ≤ WIDTH) × (WIDTH ≤ 4) };

    // every word fits into the written width
    ghost fits: { (t : Self) → word_of t < 256 ^ WIDTH };
}

// A kind of tags with an order of strictness.
pub trait RankedKind: TagKind {
    // whether the first tag is at least as strict as the second
    ghost stricter: { Self → Self → Bool };

    // Whether this tag is at least as strict as the other.
    fn at_least_as_strict(&self, other: &Self) -> bool
        ensures { result ≡ stricter self.now other.now };

    // any two tags compare
    ghost total: { (a b : Self) → (stricter a b || stricter b a) ≡ true };

    // two different tags never tie
    ghost same: { (a b : Self) → stricter a b ≡ true → stricter b a ≡ true → a ≡ b };

    // stricter than the stricter is stricter
    ghost through: { (a b c : Self) → stricter a b ≡ true → stricter b c ≡ true → stricter a c ≡ true };
}

// A tag's number in 16 bits, where it lies within the bounds of its kind.
pub(crate) fn within(number: u32, low: u32, high: u32) -> Result<u16, Refusal>
    requires { high < 2 ^ 16 }
    ensures { answer result ≡ refuse_if (nat_lt number low || nat_lt high number) 11 (gives number) }
{
    if !(low..=high).contains(&number) {
        return Err(Refusal::TagOutside);
    }
    Ok(number as u16)
}
