// A pool in memory that was lent as a slice of places.
ghost use Rattle.std.specs.Prelude.{◌≡◌, ◌-◌, ◌≤◌, min, MatchOption, [], ◌∷◌, ◌++◌, length, take, drop, replicate, slice_index_or};
ghost use Rattle.std.specs.Coded.{Coded-set, coded_list};
ghost use Rattle.nodes.specs.Records.{blank};
ghost use Rattle.nodes.specs.Pools.{capped, capped_bounded, front};
ghost use Rattle.nodes.specs.Memory.{laid};

use crate::node::{CHILDREN, MOST_NODES, Node};
use crate::place::Place;
use crate::pool::NodePool;
use cells::refusal::Refusal;

// The first `count` records of the places are the list. Behind them all is empty up to the capacity.
// The count stands beside the places, since the unit has no heap for a list.
#[derive(Drop)]
pub struct Pool<'a, T: Place> {
    places: &'a mut [T],
    count: usize,
    ghost within: { count ≤ capped (T.room (length places.now)) },
    ghost blanks: { places.now ≡ laid T.empty (take (T.span count) places.now) (T.span (capped (T.room (length places.now)))) (drop (T.span (capped (T.room (length places.now)))) places.now) } by { Coded-set (coded_list T.code) _ _ },
}

// How many records a pool in so many places may hold.
fn most_in<T: Place>(places: usize) -> usize
    ensures { result ≡ capped (T.room places) }
{
    (places / T::WIDTH).min(MOST_NODES)
}

// Empties the places of the records `from` to `to`, those of record `to` not among them.
fn blank_out<T: Place>(places: &mut [T], from: usize, to: usize)
    requires ordered { from ≤ to }
    requires inside { to ≤ capped (T.room (length places.old)) }
    ensures { places.new ≡ take (T.span from) places.old ++ (replicate (T.span to - T.span from) T.empty ++ drop (T.span to) places.old) }
{
    places[T::WIDTH * from..T::WIDTH * to].fill(T::empty());
}

impl<'a, T: Place> Pool<'a, T> {
    ghost use Rattle.nodes.specs.LentPools.{list_of, capacity_of, behind_of};

    // An empty pool: all up to the capacity becomes blank.
    pub fn empty(places: &'a mut [T]) -> Pool<'a, T>
        ensures list { list_of T.Place result ≡ [] }
        ensures fits { capacity_of T.Place result ≡ capped (T.room (length places.old)) }
        ensures untouched { behind_of T.Place result ≡ drop (T.span (capacity_of T.Place result)) places.old }
        ensures memory { result.places.now ≡ laid T.empty [] (T.span (capacity_of T.Place result)) (behind_of T.Place result) }
    {
        Pool::over(places, 0)
    }

    // A pool over the first n records as they are. All behind them, up to the capacity, becomes blank.
    pub fn over(places: &'a mut [T], n: usize) -> Pool<'a, T>
        ensures list { list_of T.Place result ≡ T.nodes_in (min n (capacity_of T.Place result)) places.old }
        ensures fits { capacity_of T.Place result ≡ capped (T.room (length places.old)) }
        ensures untouched { behind_of T.Place result ≡ drop (T.span (capacity_of T.Place result)) places.old }
        ensures memory { result.places.now ≡ laid T.empty (take (T.span (min n (capacity_of T.Place result))) places.old) (T.span (capacity_of T.Place result)) (behind_of T.Place result) }
    {
        let capacity = most_in::<T>(places.len());
        let count = n.min(capacity);
        blank_out(places, count, capacity);
        Pool { places, count }
    }

    // The places of record n, or absent past the end.
    fn places_of(&self, n: usize) -> Option<&[T]>
        ensures { MatchOption result (slice_index_or (list_of T.Place self.now) n blank ≡ blank) (λ places. (length places.now ≡ T.WIDTH) × (T.node_in places.now ≡ slice_index_or (list_of T.Place self.now) n blank)) }
    {
        // `then` was tried: that the record's places lie inside stayed open in its closure
        if n < self.count {
            let at = T::WIDTH * n;
            Some(&self.places[at..at + T::WIDTH])
        } else {
            None
        }
    }
}

impl<T: Place> Pool<'_, T> {
    ghost use Rattle.nodes.specs.LentPools.{list_of, capacity_of, behind_of};

    // Keeps the first n records, and all of them if there are no more.
    fn keep(&mut self, n: usize)
        ensures list { list_of T.Place self.new ≡ take n (list_of T.Place self.old) }
        ensures fixed { capacity_of T.Place self.new ≡ capacity_of T.Place self.old }
        ensures untouched { T.shown (behind_of T.Place self.new) ≡ T.shown (behind_of T.Place self.old) }
        ensures kept { front (length (list_of T.Place self.new)) (T.shown self.new.places.now) ≡ front (length (list_of T.Place self.new)) (T.shown self.old.places.now) }
    {
        if n < self.count {
            blank_out(self.places, n, self.count);
            self.count = n;
        }
    }
}

impl<T: Place> NodePool for Pool<'_, T> {
    ghost use Rattle.nodes.specs.LentPools.{list_of, list_within, capacity_of, behind_of};

    ghost nodes = { list_of T.Place };

    ghost capacity = { capacity_of T.Place };

    ghost behind = { λ pool. T.shown (behind_of T.Place pool) };

    ghost memory = { λ pool. T.shown pool.places.now };

    ghost within = { λ pool. list_within T.Place pool };

    ghost bounded = { λ pool. capped_bounded (T.room (length pool.places.now)) };

    ghost holds = { λ pool. T.shows pool.count (capacity_of T.Place pool) pool.places.now (behind_of T.Place pool) pool.blanks };

    fn count(&self) -> usize {
        self.count // records of the list
    }

    fn read(&self, n: usize) -> Node {
        self.places_of(n).map_or_else(Node::blank, T::node)
    }

    fn level_at(&self, n: usize) -> u8 {
        self.places_of(n).map_or(0, T::level)
    }

    fn mask_at(&self, n: usize) -> u8 {
        self.places_of(n).map_or(0, T::mask)
    }

    // no body for links and offsets alike: it would take the question, with what that asks, as a closure
    fn link_at(&self, n: usize, i: usize) -> u16 {
        match self.places_of(n) {
            Some(places) if i < CHILDREN => T::link(places, i),
            _ => 0,
        }
    }

    fn offset_at(&self, n: usize, i: usize) -> u32 {
        match self.places_of(n) {
            Some(places) if i < CHILDREN => T::offset(places, i),
            _ => 0,
        }
    }

    fn add(&mut self, node: Node) -> Result<usize, Refusal> {
        let number = self.count;
        if number >= most_in::<T>(self.places.len()) {
            return Err(Refusal::PoolFull);
        }
        let at = T::WIDTH * number;
        T::put(&mut self.places[at..at + T::WIDTH], &node);
        self.count += 1;
        Ok(number)
    }

    fn cut(&mut self, n: usize) {
        self.keep(n);
    }
}
