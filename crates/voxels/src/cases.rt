// Worked cases: proved only if the definitions compute what each case says.
ghost use Rattle.voxels.specs.WorkedCases.{WorkedCases};

pub fn worked_cases()
    ensures { WorkedCases }
{}
