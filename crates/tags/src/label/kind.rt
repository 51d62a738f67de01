// Labels as a kind of tags. They have no order.
ghost use Rattle.std.specs.Prelude.{◌≡◌, ◌||◌, nat_lt};
ghost use Rattle.cells.specs.Refusals.{answer, refuse_if, Answer.gives};
ghost use Rattle.tags.specs.Bounds.{first_plate, last_plate, label_width};
ghost use Rattle.tags.specs.Making.{shown, made};
ghost use Rattle.tags.specs.Labels.{plate_of, label_of};
ghost use Rattle.tags.specs.TagKinds.{label_back, label_only, label_bytes, label_fits};

use super::{FIRST_PLATE, LAST_PLATE, Label};
use crate::kind::{TagKind, within};
use cells::refusal::Refusal;

impl Label {
    // The tag of a plate's number.
    pub fn new(plate: u32) -> Result<Label, Refusal>
        ensures numbers { shown plate_of (answer result) ≡ refuse_if (nat_lt plate first_plate || nat_lt last_plate plate) 11 (gives plate) }
        ensures tag { answer result ≡ made (label_of plate) }
    {
        Ok(Label {
            plate: within(plate, FIRST_PLATE, LAST_PLATE)?,
        })
    }
}

impl TagKind for Label {
    const WIDTH: usize = 2;

    ghost WIDTH = { label_width };

    ghost word_of = { plate_of };

    ghost reading = { label_of };

    ghost back = { label_back };

    ghost only = { label_only };

    ghost bytes = { label_bytes };

    ghost fits = { label_fits };

    fn word(self) -> u32 {
        u32::from(self.plate)
    }

    fn read(word: u32) -> Option<Label> {
        Label::new(word).ok()
    }
}
