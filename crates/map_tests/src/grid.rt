// Maps held to a plain full grid: a limit, or nothing, for each code.
ghost use Rattle.std.specs.Prelude.{◌<◌, ◌≤◌};

use cells::hall::Cell;
use nodes::node::Node;
use nodes::pool::NodePool;
use nodes::row_pool::RowPool;
use std::alloc::{AllocError, Global};
use std::iter;
use std::process::Abort;
use std::test::Fail;
use tags::flat::FlatStore;
use tags::speed::Speed;
use tags::store::TagStore;
use voxels::found::Found;
use voxels::map::Map;
use voxels::strictest::Strictest;

// The next number of a plain sequence that looks random.
fn next(seed: u32) -> u32 {
    seed.wrapping_mul(1_664_525).wrapping_add(1_013_904_223)
}

// One coordinate of a code's cell: every third bit, from the given weight on.
fn coordinate(code: u32, weight: u32) -> u32
    requires { 0 < weight }
{
    let rest = code / weight;
    let low = rest % 2 + 2 * (rest / 8 % 2) + 4 * (rest / 64 % 2);
    low + 8 * (rest / 512 % 2) + 16 * (rest / 4096 % 2)
}

// The cell of a code, bit by bit.
fn cell_at(code: u32) -> Cell {
    Cell {
        x: coordinate(code, 1),
        y: coordinate(code, 2),
        z: coordinate(code, 4),
    }
}

// A box by its corners.
#[derive(Clone, Copy)]
struct Corners {
    low: Cell,
    high: Cell,
}

impl Corners {
    // Whether the low corner is nowhere above the high one.
    fn in_order(self) -> bool {
        self.low.x <= self.high.x && self.low.y <= self.high.y && self.low.z <= self.high.z
    }

    // Whether the box holds a cell, coordinate by coordinate.
    fn hold(self, cell: Cell) -> bool {
        let x = self.low.x <= cell.x && cell.x <= self.high.x;
        let y = self.low.y <= cell.y && cell.y <= self.high.y;
        let z = self.low.z <= cell.z && cell.z <= self.high.z;
        x && y && z
    }

    // What the occupied cells of the box say one by one.
    fn strictest(self, heap: Global, occupied: &[(u32, u32)]) -> Result<Strictest<Speed>, Fail> {
        let limits: Vec<u32> = occupied
            .iter()
            .filter(|(code, _)| self.hold(cell_at(*code)))
            .map(|(_, limit)| *limit)
            .collect(heap)?;
        Ok(Strictest {
            cells: limits.len() as u64,
            tag: limits.iter().copied().min().map(Speed::new).transpose()?,
        })
    }
}

// A hall: for each code a limit, or nothing where the cell is free.
#[derive(Drop)]
struct Hall {
    grid: Vec<Option<u32>>,
}

impl Hall {
    // A hall of so many cells, in which one cell of `rare` is occupied.
    fn draw(heap: Global, cells: usize, rare: u32) -> Result<Hall, AllocError>
        requires { 0 < rare }
    {
        let first = next(rare.wrapping_mul(7));
        let grid = iter::successors(Some(first), |seed| Some(next(*seed)))
            .take(cells)
            .map(|seed| seed >> 8)
            .map(|drawn| (drawn % rare == 0).then_some(drawn / 64 % 2000))
            .collect(heap)?;
        Ok(Hall { grid })
    }

    // The codes of the occupied cells, with their limits.
    fn occupied(&self) -> Result<Vec<(u32, u32)>, AllocError> {
        (0..)
            .zip(self.grid.iter())
            .filter_map(|(code, limit)| limit.map(|limit| (code, limit)))
            .collect(*self.grid.allocator())
    }

    // The cells each of whose coordinates, divided by the step, leaves this rest.
    fn cells_at(&self, step: u32, rest: u32) -> Result<Vec<Cell>, AllocError>
        requires { 0 < step }
    {
        (0..)
            .map(cell_at)
            .take(self.grid.len())
            .filter(|cell| cell.x % step == rest && cell.y % step == rest && cell.z % step == rest)
            .collect(*self.grid.allocator())
    }

    // Each cell of a map looks as the hall has it. Its rank is the number of occupied cells before it.
    fn looks_like<P: NodePool, S: TagStore>(
        &self,
        rt: &impl Abort,
        map: &Map<P, S, Speed>,
    ) -> Result<(), Fail> {
        let occupied = self.occupied()?;
        for (rank, (code, limit)) in (0..).zip(occupied.iter().copied()) {
            let tag = Speed::new(limit)?;
            let found = map.look(cell_at(code))?;
            assert_eq!(rt; found, Some(Found { rank, tag }));
        }
        for (code, limit) in (0..).zip(self.grid.iter()) {
            let found = map.look(cell_at(code))?;
            assert_eq!(rt; found.is_some(), limit.is_some());
        }
        assert_eq!(rt; map.cell_count(), occupied.len());
        Ok(())
    }

    // So does every box whose corners lie on every `step`th cell of the hall.
    fn boxes_like<P: NodePool, S: TagStore>(
        &self,
        rt: &impl Abort,
        map: &Map<P, S, Speed>,
        step: u32,
    ) -> Result<(), Fail>
        requires { 0 < step }
    {
        let heap = *self.grid.allocator();
        let occupied = self.occupied()?;
        let lows = self.cells_at(step, 0)?;
        let highs = self.cells_at(step, step - 1)?;
        for low in lows.iter().copied() {
            for high in highs.iter().copied() {
                let corners = Corners { low, high };
                if corners.in_order() {
                    let found = map.strictest(low, high)?;
                    assert_eq!(rt; found, corners.strictest(heap, occupied.as_slice())?);
                }
            }
        }
        Ok(())
    }
}

// Makes a hall of so many levels and its map, and holds the one to the other.
fn try_hall(rt: &impl Abort, heap: Global, levels: u32, rare: u32, step: u32) -> Result<(), Fail>
    requires levels { levels ≤ 5 }
    requires rare { 0 < rare }
    requires step { 0 < step }
{
    let cells = 1 << (3 * levels);
    let hall = Hall::draw(heap, cells, rare)?;
    let mut rows = vec![in heap; Node::blank(); cells]?;
    let mut numbers = vec![in heap; 0; cells]?;
    let pool = RowPool::empty(rows.as_mut_slice());
    let store = FlatStore::new(numbers.as_mut_slice());
    let mut map = Map::open(levels, pool, store);
    for (code, limit) in hall.occupied()?.iter() {
        map.place(*code, Speed::new(*limit)?)?;
    }
    map.seal()?;
    hall.looks_like(rt, &map)?;
    hall.boxes_like(rt, &map, step)
}

#[test]
fn all_boxes_of_two_levels(rt: HostRuntime) -> Result<(), Fail> {
    for rare in 1..9 {
        try_hall(&rt, rt.alloc(), 2, rare, 1)?;
    }
    Ok(())
}

#[test]
fn boxes_of_three_levels(rt: HostRuntime) -> Result<(), Fail> {
    try_hall(&rt, rt.alloc(), 3, 3, 1)?;
    try_hall(&rt, rt.alloc(), 3, 40, 1)
}

#[test]
fn boxes_of_four_and_five_levels(rt: HostRuntime) -> Result<(), Fail> {
    try_hall(&rt, rt.alloc(), 4, 5, 4)?;
    try_hall(&rt, rt.alloc(), 5, 90, 8)
}
