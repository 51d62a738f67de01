// Loads: what a floor carries, and the zone that it belongs to.
ghost use Rattle.std.specs.Prelude.{◌≤◌};
ghost use Rattle.tags.specs.Bounds.{top_load, top_zone};

pub mod kind;

// The highest load in steps of 10 kg.
pub const TOP_LOAD: u32 = 6300;

// The highest number of a zone.
pub const TOP_ZONE: u32 = 255;

// The loads that a word keeps apart within one zone.
pub const LOADS_PER_ZONE: u32 = 8192;

// A load in steps of 10 kg, in a zone.
#[derive(Clone, Copy, PartialEq, Eq, PartialOrd, Ord, Debug)]
pub struct Load {
    load: u16,
    zone: u8,
    ghost light: { load ≤ top_load },
    ghost near: { zone ≤ top_zone },
}
