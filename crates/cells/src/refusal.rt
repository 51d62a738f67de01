// The one table of refusals. A call that says no answers one of these and leaves everything as it was.
ghost use Rattle.std.specs.Prelude.{◌≡◌};
ghost use Rattle.cells.specs.Refusals.{number_of};

#[derive(Clone, Copy, PartialEq, Eq, Debug)]
pub enum Refusal {
    Levels = 1,
    State = 2,
    Outside = 3,
    NotAbove = 4,
    NothingThere = 5,
    PoolFull = 6,
    StoreFull = 7,
    CornersCrossed = 8,
    NotSealed = 9,
    TagsUnfit = 10,
    TagOutside = 11,
    BadLine = 12,
    TooManyBoxes = 13,
    BufferShort = 14,
}

impl Refusal {
    // The number under which the table lists the refusal. `u8::from` gives it too; a report reads better with its name.
    pub fn number(self) -> u8
        ensures { result ≡ number_of self }
    {
        self as u8
    }
}
