// A search over entries whose `==` leaves a part out: it goes by the comparison that the entry gives.

use cells::row::{Entry, Row, search};
use std::test::Fail;

// A plate with a note. Two plates are equal by their number alone.
#[derive(Clone, Copy, Debug)]
#[derive_where(PartialEq, Eq)]
struct Plate {
    number: u32,
    #[derive_where(skip(EqHashOrd))]
    note: u8,
}

// Two plates are the same if their notes agree too.
impl Entry for Plate {
    fn same(&self, other: &Plate) -> bool {
        self.number == other.number && self.note == other.note
    }
}

#[derive(Clone, Copy, Debug)]
struct Plates<'a> {
    plates: &'a [Plate],
}

impl Row for Plates<'_> {
    type Item = Plate;

    ghost entries = { λ row. row.plates.now };

    fn count(&self) -> usize {
        self.plates.len()
    }

    fn entry(&self, n: usize) -> Option<Plate> {
        self.plates.get(n).copied()
    }
}

#[test]
fn plates_with_notes(rt: HostRuntime) -> Result<(), Fail> {
    let plates = [
        Plate { number: 7, note: 1 },
        Plate { number: 7, note: 2 },
        Plate { number: 9, note: 2 },
    ];
    let row = Plates { plates: &plates };
    assert!(rt; plates[0] == plates[1]);
    assert_eq!(rt; search(&row, &Plate { number: 7, note: 2 }), Some(1));
    assert_eq!(rt; search(&row, &Plate { number: 9, note: 1 }), None);
    Ok(())
}
