// What a call asks of the plain state first: an open map, or a sealed one.
ghost use Rattle.std.specs.Prelude.{◌≡◌, true, None};
ghost use Rattle.cells.specs.Refusals.{gives};
ghost use Rattle.cells.specs.Levels.{levels_answer};
ghost use Rattle.voxels.specs.Phases.{if_open, if_sealed, levels_in};
ghost use Rattle.voxels.specs.Stands.{EmptyRows};

use crate::phase::Phase;
use crate::plain::Plain;
use crate::row::empty_rows;
use cells::levels::Levels;
use cells::refusal::Refusal;

impl Plain {
    // A map that has no cells yet, or none that it would answer of.
    pub(crate) fn in_phase(levels: u32, phase: Phase) -> Plain
        requires { levels_in phase levels ≡ true }
        ensures phase { result.phase ≡ phase }
        ensures levels { result.levels ≡ levels }
        ensures last { result.last ≡ None }
        ensures rows { EmptyRows result.rows }
    {
        Plain {
            levels,
            phase,
            last: None,
            rows: empty_rows(),
        }
    }

    // The levels of an open map. A void map refuses with what made it void.
    pub(crate) fn open(&self) -> Result<Levels, Refusal>
        ensures { levels_answer result ≡ if_open self.now.phase (gives self.now.levels) }
    {
        match self.phase {
            Phase::Void(refusal) => Err(refusal),
            Phase::Open => Ok(Levels { count: self.levels }),
            Phase::Sealed => Err(Refusal::State),
        }
    }

    // The levels of a sealed map. A void map refuses with what made it void.
    pub(crate) fn sealed(&self) -> Result<Levels, Refusal>
        ensures { levels_answer result ≡ if_sealed self.now.phase (gives self.now.levels) }
    {
        match self.phase {
            Phase::Void(refusal) => Err(refusal),
            Phase::Open => Err(Refusal::State),
            Phase::Sealed => Ok(Levels { count: self.levels }),
        }
    }
}
