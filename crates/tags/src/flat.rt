// The flat store: one number for each word.
ghost use Rattle.std.specs.Prelude.{◌≤◌, min, length};
ghost use Rattle.tags.specs.Stores.{most_words};

pub mod words;

// Words over lent numbers, of which the first are in use. The count stands beside them, since the unit has no heap for a list.
#[derive(Drop)]
pub struct FlatStore<'a> {
    numbers: &'a mut [u32],
    count: usize,
    ghost fits: { count ≤ min (length numbers.now) most_words },
}
