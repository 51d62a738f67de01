// Loads as a ranked kind of tags.
ghost use Rattle.std.specs.Prelude.{◌≡◌, ◌||◌, nat_lt};
ghost use Rattle.cells.specs.Refusals.{answer, refuse_if, Answer.gives};
ghost use Rattle.tags.specs.Bounds.{top_load, top_zone, load_width};
ghost use Rattle.tags.specs.Making.{shown, made};
ghost use Rattle.tags.specs.Loads.{load_word, load_of, load_at, zoned_load, lighter};
ghost use Rattle.tags.specs.TagKinds.{load_back, load_only, load_bytes, load_fits, lighter_total, lighter_same, lighter_through};

use super::{LOADS_PER_ZONE, Load, TOP_LOAD, TOP_ZONE};
use crate::kind::{RankedKind, TagKind, within};
use cells::refusal::Refusal;

impl Load {
    // The tag of a load in steps of 10 kg and a zone.
    pub fn new(load: u32, zone: u32) -> Result<Load, Refusal>
        ensures numbers { shown zoned_load (answer result) ≡ refuse_if (nat_lt top_load load || nat_lt top_zone zone) 11 (gives (load, zone)) }
        ensures tag { answer result ≡ made (load_at load zone) }
    {
        Ok(Load {
            load: within(load, 0, TOP_LOAD)?,
            zone: within(zone, 0, TOP_ZONE)? as u8,
        })
    }
}

impl TagKind for Load {
    const WIDTH: usize = 3;

    ghost WIDTH = { load_width };

    ghost word_of = { λ t. load_word t.load t.zone };

    ghost reading = { load_of };

    ghost back = { load_back };

    ghost only = { load_only };

    ghost bytes = { load_bytes };

    ghost fits = { load_fits };

    fn word(self) -> u32 {
        u32::from(self.zone) * LOADS_PER_ZONE + u32::from(self.load)
    }

    fn read(word: u32) -> Option<Load> {
        Load::new(word % LOADS_PER_ZONE, word / LOADS_PER_ZONE).ok()
    }
}

impl RankedKind for Load {
    ghost stricter = { lighter };

    ghost total = { lighter_total };

    ghost same = { lighter_same };

    ghost through = { lighter_through };

    fn at_least_as_strict(&self, other: &Load) -> bool {
        self <= other
    }
}
