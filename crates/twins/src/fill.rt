// The cells of a small hall, with a tag for each.
use cells::refusal::Refusal;
use nodes::pool::NodePool;
use tags::kind::TagKind;
use tags::load::Load;
use tags::speed::Speed;
use tags::store::TagStore;
use voxels::map::Map;

// A cell, with its limit in mm/s (0 is keep out) and its load in steps of 10 kg.
pub struct Spot {
    code: u32,
    limit: u32,
    load: u32,
}

// A press, a rack leg of the same shape beside it, and a column in the far corner.
const SPOTS: [Spot; 5] = [
    Spot {
        code: 0,
        limit: 0,
        load: 6300,
    },
    Spot {
        code: 8,
        limit: 500,
        load: 0,
    },
    Spot {
        code: 17,
        limit: 300,
        load: 120,
    },
    Spot {
        code: 56,
        limit: 500,
        load: 120,
    },
    Spot {
        code: 63,
        limit: 0,
        load: 2000,
    },
];

// The zone of every load.
const ZONE: u32 = 4;

impl Spot {
    pub fn speed(&self) -> Result<Speed, Refusal> {
        Speed::new(self.limit)
    }

    pub fn load(&self) -> Result<Load, Refusal> {
        Load::new(self.load, ZONE)
    }
}

// Places each cell with the tag that it gets in this kind, and seals the map.
pub(crate) fn fill<P: NodePool, S: TagStore, K: TagKind, F: Fn(&Spot) -> Result<K, Refusal>>(
    map: &mut Map<P, S, K>,
    tag_of: F,
) -> Result<(), Refusal>
    requires { F.IsAlwaysCallable tag_of }
{
    for spot in &SPOTS {
        map.place(spot.code, tag_of(spot)?)?;
    }
    map.seal()
}
