// The sealed list of node records that a set of cells has. The definitions and the laws stand in specs/;
// the functions here do nothing, and are proved only if the laws are.

#![tactic(auto)]

ghost use Rattle.dag.specs.Laws.{KeepsRules, NoneTwice, MarksCells, RanksCells, Grows, Ends, Depends, NoneFromNone};
ghost use Rattle.dag.specs.Fewest.{FewestRecords, OneListPerSet};
ghost use Rattle.dag.specs.Delivered.{MarkedSet, SealsMarked};
ghost use Rattle.dag.specs.Judged.{PassesSeals, SealsPasses};
ghost use Rattle.dag.specs.Cases.{ThreeCells, FullHall, ThreeRecords, NoCells};

// The sealed list keeps the node rules, and no record stands in it twice.
pub fn keeps_rules()
    ensures rules { KeepsRules }
    ensures none_twice { NoneTwice }
{}

// It marks exactly the cells.
pub fn marks_cells()
    ensures { MarksCells }
{}

// The offsets on a cell's path add up to the number of cells with smaller codes.
pub fn ranks_cells()
    ensures { RanksCells }
{}

// The part of the list below a code is a beginning of the list, and depends on no cell at or above the code.
pub fn grows()
    ensures begins { Grows }
    ensures ends { Ends }
    ensures depends { Depends }
    ensures none { NoneFromNone }
{}

// No list that keeps the node rules and marks the same cells is shorter.
pub fn fewest_records()
    ensures { FewestRecords }
{}

// Two sets of cells have the same sealed list exactly if they are the same.
pub fn one_list_per_set()
    ensures { OneListPerSet }
{}

// A delivered list passes exactly if some set of cells seals to it, and it tells how many cells there are.
pub fn judges_lists()
    ensures seals { PassesSeals }
    ensures passes { SealsPasses }
{}

// The cells that seal to a list are those that it marks.
pub fn marked_cells()
    ensures rising { MarkedSet }
    ensures same { SealsMarked }
{}

// Four halls whose sealed lists are written out.
pub fn worked_halls()
    ensures three_cells { ThreeCells }
    ensures full_hall { FullHall }
    ensures three_records { ThreeRecords }
    ensures no_cells { NoCells }
{}
