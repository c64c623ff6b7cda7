//! An element of an array and its positions, in the order of the member list: the order says which member holds which strip.
ghost use Rattle.std.specs.Prelude.{◌≡◌, ◌≤◌, length, Ok};

use arrayvec::ArrayVec;
use ddf_bytes::NoMemory;
use std::alloc::Global;
use std::marker::Model;

/// One place in the member list of an element.
#[derive(Clone, Copy, Default, PartialEq, Eq)]
pub struct Position {
    /// The reference of the disk.
    pub reference: u32,
    /// The LBA of the extent's first sector on the disk.
    pub start: u64,
    /// Whether the position is in sync: its extent holds what its place in the element asks for.
    pub synced: bool,
    /// The rows that a rebuild has set so far.
    pub row: u64,
}

/// One element of an array: a primary level over members. Contracts see the positions as a list.
#[derive(Drop)]
pub struct ElementPlan {
    /// The primary RAID level.
    pub level: u8,
    /// The RAID level qualifier.
    pub qualifier: u8,
    /// The stripe size code n, for `2^n` sectors.
    pub strip: u8,
    /// The sectors that each member gives.
    pub blocks: u64,
    /// The reference of the disk that stands in at one of the positions, a revertible spare: it gives the place back once another
    /// disk is there. 0 where there is none.
    pub stand_in: u32,
    /// The positions, in the order of the member list.
    pub positions: ArrayVec<Position, 64>,
}

impl Model for ElementPlan {
    ghost use Rattle.ddf_config.specs.ElementValue.{ElementValue};

    ghost Value = { ElementValue };

    ghost view = { λ element. record {
      level = element.level;
      qualifier = element.qualifier;
      strip = element.strip;
      blocks = element.blocks;
      stand_in = element.stand_in;
      positions = element.positions.items;
    } };
}

impl ElementPlan {
    ghost use Rattle.ddf_config.specs.ElementValue.{with_disks, with_positions};

    /// A second value that equals this one. An element takes no memory of its own, so there is always one.
    pub fn duplicate(&self, _alloc: Global) -> Result<ElementPlan, NoMemory>
        ensures { result ≡ Ok self.now }
    {
        Ok(self.with_positions(second_positions(self.positions.as_slice())))
    }

    /// The element with other positions.
    pub fn with_positions(&self, positions: ArrayVec<Position, 64>) -> ElementPlan
        ensures { result ≡ with_positions self.now positions.items }
    {
        ElementPlan {
            level: self.level,
            qualifier: self.qualifier,
            strip: self.strip,
            blocks: self.blocks,
            stand_in: self.stand_in,
            positions,
        }
    }

    /// The element on other disks: another one that stands in, or 0 for none, and other positions.
    pub fn with_disks(&self, stand_in: u32, positions: ArrayVec<Position, 64>) -> ElementPlan
        ensures { result ≡ with_disks self.now stand_in positions.items }
    {
        ElementPlan {
            level: self.level,
            qualifier: self.qualifier,
            strip: self.strip,
            blocks: self.blocks,
            stand_in,
            positions,
        }
    }
}

fn second_positions(positions: &[Position]) -> ArrayVec<Position, 64>
    requires { length positions.now ≤ 64 }
    ensures { result.items ≡ positions.now }
{
    let mut second = ArrayVec::new();
    for position in positions {
        second.push(*position);
    }
    second
}
