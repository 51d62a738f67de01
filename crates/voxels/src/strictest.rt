// What strictest answers of a box.
ghost use Rattle.voxels.specs.Strict.{Took};
ghost use Rattle.std.specs.Prelude.{[], ◌∷◌};

use tags::kind::RankedKind;

// How many occupied cells a box has, and the strictest of their tags, which is absent where there are none.
#[derive(Clone, Copy, PartialEq, Eq, Debug)]
pub struct Strictest<K> {
    pub cells: u64,
    pub tag: Option<K>,
}

impl<K: RankedKind> Strictest<K> {
    // Counts one more tag.
    pub(crate) fn take(&mut self, tag: K)
        ensures { Took K.RankedKind.stricter self.old (tag ∷ []) self.new }
    {
        let stays = self
            .tag
            .is_some_and(|strict| strict.at_least_as_strict(&tag));
        if !stays {
            self.tag = Some(tag);
        }
        self.cells = self.cells.saturating_add(1);
    }
}
