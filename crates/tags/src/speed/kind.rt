// Speed limits as a ranked kind of tags.
ghost use Rattle.std.specs.Prelude.{◌≡◌, nat_lt};
ghost use Rattle.cells.specs.Refusals.{answer, refuse_if, Answer.gives};
ghost use Rattle.tags.specs.Bounds.{top_speed, speed_width};
ghost use Rattle.tags.specs.Making.{shown, made};
ghost use Rattle.tags.specs.Speeds.{limit_of, speed_of, slower};
ghost use Rattle.tags.specs.TagKinds.{speed_back, speed_only, speed_bytes, speed_fits, slower_total, slower_same, slower_through};

use super::{Speed, TOP_SPEED};
use crate::kind::{RankedKind, TagKind, within};
use cells::refusal::Refusal;

impl Speed {
    // The tag of a limit in mm/s.
    pub fn new(limit: u32) -> Result<Speed, Refusal>
        ensures numbers { shown limit_of (answer result) ≡ refuse_if (nat_lt top_speed limit) 11 (gives limit) }
        ensures tag { answer result ≡ made (speed_of limit) }
    {
        Ok(Speed {
            limit: within(limit, 0, TOP_SPEED)?,
        })
    }
}

impl TagKind for Speed {
    const WIDTH: usize = 2;

    ghost WIDTH = { speed_width };

    ghost word_of = { limit_of };

    ghost reading = { speed_of };

    ghost back = { speed_back };

    ghost only = { speed_only };

    ghost bytes = { speed_bytes };

    ghost fits = { speed_fits };

    fn word(self) -> u32 {
        u32::from(self.limit)
    }

    fn read(word: u32) -> Option<Speed> {
        Speed::new(word).ok()
    }
}

impl RankedKind for Speed {
    ghost stricter = { slower };

    ghost total = { slower_total };

    ghost same = { slower_same };

    ghost through = { slower_through };

    fn at_least_as_strict(&self, other: &Speed) -> bool {
        self <= other
    }
}
