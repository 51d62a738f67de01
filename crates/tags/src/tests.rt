// Edges of the kinds and of the stores.
use crate::flat::FlatStore;
use crate::kind::{RankedKind, TagKind};
use crate::label::Label;
use crate::load::Load;
use crate::palette::PaletteStore;
use crate::palette::block::{BLOCK_WORDS, Block, PALETTE_PLACES};
use crate::speed::Speed;
use crate::store::TagStore;
use cells::refusal::Refusal;
use std::test::Fail;

#[test]
fn speed_edges(rt: HostRuntime) -> Result<(), Fail> {
    assert_eq!(rt; Speed::new(0)?.word(), 0);
    assert_eq!(rt; Speed::new(1999)?.word(), 1999);
    assert!(rt; Speed::new(2000).is_err());
    assert!(rt; Speed::read(1999).is_some());
    assert!(rt; Speed::read(2000).is_none());
    Ok(())
}

#[test]
fn load_edges(rt: HostRuntime) -> Result<(), Fail> {
    assert_eq!(rt; Load::new(6300, 255)?.word(), 2_095_260);
    assert!(rt; Load::new(6301, 0).is_err());
    assert!(rt; Load::new(0, 256).is_err());
    assert!(rt; Load::read(2_095_261).is_none());
    assert!(rt; Load::read(2_097_152).is_none());
    Ok(())
}

#[test]
fn label_edges(rt: HostRuntime) -> Result<(), Fail> {
    assert!(rt; Label::new(0).is_err());
    assert_eq!(rt; Label::new(1)?.word(), 1);
    assert_eq!(rt; Label::new(65_535)?.word(), 65_535);
    assert!(rt; Label::new(65_536).is_err());
    Ok(())
}

#[test]
fn load_before_zone(rt: HostRuntime) -> Result<(), Fail> {
    let light = Load::new(10, 9)?;
    let heavy = Load::new(20, 1)?;
    assert!(rt; light.at_least_as_strict(&heavy));
    assert!(rt; !heavy.at_least_as_strict(&light));
    Ok(())
}

#[test]
fn flat_full(rt: HostRuntime) -> Result<(), Fail> {
    let mut numbers = [7, 7];
    let mut store = FlatStore::new(&mut numbers);
    store.add(1)?;
    store.add(2)?;
    assert_eq!(rt; store.add(3), Err(Refusal::StoreFull));
    assert_eq!(rt; store.change(2, 3), Err(Refusal::StoreFull));
    store.change(1, 9)?;
    assert_eq!(rt; store.word(1), Some(9));
    assert_eq!(rt; store.word(2), None);
    store.empty();
    assert_eq!(rt; store.count(), 0);
    Ok(())
}

// A block with any content, as lent memory may have it.
fn worn() -> Block {
    Block {
        palette: [5; PALETTE_PLACES],
        indices: [255; BLOCK_WORDS],
    }
}

#[test]
fn sixteen_words(rt: HostRuntime) -> Result<(), Fail> {
    let mut blocks = [worn()];
    let mut store = PaletteStore::new(&mut blocks);
    for w in 0..16 {
        store.add(w)?;
    }
    assert_eq!(rt; store.add(16), Err(Refusal::StoreFull));
    store.change(15, 16)?;
    assert_eq!(rt; store.word(15), Some(16));
    assert_eq!(rt; store.word(5), Some(5));
    Ok(())
}

#[test]
fn place_taken_again(rt: HostRuntime) -> Result<(), Fail> {
    let mut blocks = [worn()];
    let mut store = PaletteStore::new(&mut blocks);
    for w in 0..16 {
        store.add(w)?;
    }
    store.add(3)?;
    assert_eq!(rt; store.change(16, 16), Err(Refusal::StoreFull));
    store.change(3, 3)?;
    store.change(5, 7)?;
    store.add(16)?;
    assert_eq!(rt; store.word(17), Some(16));
    assert_eq!(rt; store.word(5), Some(7));
    Ok(())
}

#[test]
fn next_block(rt: HostRuntime) -> Result<(), Fail> {
    let mut blocks = [worn(), Block::blank()];
    let mut store = PaletteStore::new(&mut blocks);
    for w in 0..80 {
        store.add(w / 4)?;
    }
    assert_eq!(rt; store.word(63), Some(15));
    assert_eq!(rt; store.word(64), Some(16));
    Ok(())
}

#[test]
fn one_block_full(rt: HostRuntime) -> Result<(), Fail> {
    let mut blocks = [worn()];
    let mut store = PaletteStore::new(&mut blocks);
    for _ in 0..64 {
        store.add(1)?;
    }
    assert_eq!(rt; store.add(1), Err(Refusal::StoreFull));
    Ok(())
}
