// The one search: the lowest number of an entry of a row that equals a given one.
ghost use Rattle.std.specs.Prelude.{◌≡◌, List, length, Some, Decides};
ghost use Rattle.std.specs.List.{slice_get};
ghost use Rattle.cells.specs.Rows.{Lowest};

// An entry that can be compared with another of its type. The comparison is a call of its own and no bound on `Eq`, so that
// entries whose `==` leaves a part out can be searched too.
pub trait Entry: Drop {
    fn same(&self, other: &Self) -> bool
        ensures { Decides result (self.now ≡ other.now) };
}

// A row of entries, numbered from 0.
pub trait Row {
    type Item: Entry;

    // the entries in their order
    ghost entries: { Self → List Self.Item };

    fn count(&self) -> usize
        ensures { result ≡ length (entries self.now) };

    // Entry n, or absent past the end.
    fn entry(&self, n: usize) -> Option<Self::Item>
        ensures { result ≡ slice_get (entries self.now) n };
}

// The lowest number of an entry that equals the wanted one, or absent.
pub fn search<R: Row>(row: &R, wanted: &R::Item) -> Option<usize>
    ensures { Lowest (R.Row.entries row.now) wanted.now result }
{
    (0..row.count()).find(
        |&n|
            ensures { Decides result (slice_get (R.Row.entries row.entry.now) n ≡ Some wanted.entry.now) }
        { row.entry(n).is_some_and(|found| found.same(wanted)) },
    )
}

impl Entry for u8 {
    fn same(&self, other: &u8) -> bool {
        *self == *other
    }
}

impl Entry for bool {
    fn same(&self, mark: &bool) -> bool {
        *self == *mark
    }
}

impl Entry for u32 {
    fn same(&self, word: &u32) -> bool {
        *self == *word
    }
}

// A slice as a row of its items.
#[derive(Clone, Copy, PartialEq, Eq, Debug)]
pub struct Items<'a, T> {
    pub items: &'a [T],
}

impl<T: Entry + Copy> Row for Items<'_, T> {
    type Item = T;

    ghost entries = { λ row. row.items.now };

    fn count(&self) -> usize {
        self.items.len()
    }

    fn entry(&self, n: usize) -> Option<T> {
        self.items.get(n).copied()
    }
}
