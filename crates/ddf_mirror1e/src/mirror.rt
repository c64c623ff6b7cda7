//! An element of RAID 1E as numbers: from a block to its two cells and back. Two copies on one member would be lost together, and two blocks in
//! one cell would be one: both are laws in `laws.rt`.
ghost use Rattle.std.specs.Prelude.{◌≡◌, ◌↔◌, ℕ, ◌<◌, ◌≤◌, ◌*◌, ◌/◌, ◌^◌, IfOk, Some};

use crate::{MirrorCell, MirrorFault, Spread};
use std::marker::Model;

/// One element of RAID 1E, which says where both copies of each of its blocks lie.
#[derive(Clone, Copy, PartialEq, Eq)]
pub struct Mirror1e {
    spread: Spread,
    members: u16,
    strip: u64,
    blocks: u64,
}

impl Model for Mirror1e {
    ghost use Rattle.ddf_mirror1e.specs.Mirror.{Mirror, mirror};
    ghost use Rattle.ddf_mirror1e.specs.Codes.{IsMirror};

    ghost Value = { Mirror };

    ghost view = { λ m. mirror m.spread m.members m.strip m.blocks };

    ghost invariant = { λ m. IsMirror (mirror m.spread m.members m.strip m.blocks) };

    ghost inverse = { λ m. record { spread = m.spread; members = m.members; strip = m.strip; blocks = m.blocks } };
}

impl Mirror1e {
    ghost use Rattle.ddf_mirror1e.specs.Mirror.{mirror};
    ghost use Rattle.ddf_mirror1e.specs.Codes.{mirror_of, IsMirror};
    ghost use Rattle.ddf_mirror1e.specs.Copies.{capacity, first, second, data_strips, first_strip, second_strip, strip_at, Holds};

    /// The most blocks that a member's part may have (profile).
    const MOST_BLOCKS: u64 = 1 << 48;

    /// The RAID 1E of a qualifier, a number of members, the sectors of a strip, and the blocks per member.
    ///
    /// # Errors
    /// The first fault, in the order of `MirrorFault`.
    pub fn new(
        qualifier: u8,
        members: u16,
        strip: u64,
        blocks: u64,
    ) -> Result<Mirror1e, MirrorFault>
        requires low { 1 ≤ strip }
        requires high { strip ≤ 2 ^ 31 }
        ensures value { result ≡ mirror_of qualifier members strip blocks }
        ensures sound { IfOk result IsMirror }
    {
        let Some(spread) = Spread::from_code(qualifier) else {
            return Err(MirrorFault::Qualifier(qualifier));
        };
        if members < 3 {
            return Err(MirrorFault::MemberCount(members));
        }
        if blocks < 2 * strip || blocks > Mirror1e::MOST_BLOCKS {
            return Err(MirrorFault::Blocks(blocks));
        }
        Ok(Mirror1e {
            spread,
            members,
            strip,
            blocks,
        })
    }

    /// The one of these numbers, where they make one.
    pub fn of(spread: Spread, members: u16, strip: u64, blocks: u64) -> Mirror1e
        requires { IsMirror (mirror spread members strip blocks) }
        ensures { result ≡ mirror spread members strip blocks }
    {
        Mirror1e {
            spread,
            members,
            strip,
            blocks,
        }
    }

    /// The blocks that the element holds.
    pub fn capacity(&self) -> u64
        ensures value { result ≡ capacity self.now }
        ensures bound { result ≤ self.now.members * self.now.blocks }
        ensures sound { IsMirror self.now }
    {
        self.data_strips() * self.strip
    }

    /// The blocks of one data row: the strips of two rows of the members, each held twice.
    pub fn unit(&self) -> u64
        ensures { result ≡ self.now.members * self.now.strip }
    {
        u64::from(self.members) * self.strip
    }

    /// The whole data rows.
    pub fn rows(&self) -> u64
        ensures { result ≡ self.now.blocks / self.now.strip / 2 }
    {
        self.blocks / self.strip / 2
    }

    /// The first copy of a block.
    pub fn first(&self, block: u64) -> MirrorCell
        requires { block < capacity self.now }
        ensures member { result.member ≡ (first self.now block).0 }
        ensures sector { result.sector ≡ (first self.now block).1 }
        ensures row { result.row ≡ block / self.now.strip / self.now.members }
    {
        let strip = block / self.strip;
        let (member, row) = self.first_strip(strip);
        MirrorCell {
            member,
            sector: row * self.strip + block % self.strip,
            row: strip / u64::from(self.members),
        }
    }

    /// The second copy of a block.
    pub fn second(&self, block: u64) -> MirrorCell
        requires { block < capacity self.now }
        ensures member { result.member ≡ (second self.now block).0 }
        ensures sector { result.sector ≡ (second self.now block).1 }
        ensures row { result.row ≡ block / self.now.strip / self.now.members }
    {
        let strip = block / self.strip;
        let (member, row) = self.second_strip(strip);
        MirrorCell {
            member,
            sector: row * self.strip + block % self.strip,
            row: strip / u64::from(self.members),
        }
    }

    /// The member and row of a strip of blocks.
    fn first_strip(&self, strip: u64) -> (u16, u64)
        requires { strip < data_strips self.now }
        ensures { result ≡ first_strip self.now.spread self.now.members strip }
    {
        let members = u64::from(self.members);
        match self.spread {
            Spread::Adjacent => ((2 * strip % members) as u16, 2 * strip / members),
            Spread::Offset => ((strip % members) as u16, 2 * (strip / members)),
        }
    }

    /// The member and row of its second copy.
    fn second_strip(&self, strip: u64) -> (u16, u64)
        requires { strip < data_strips self.now }
        ensures { result ≡ second_strip self.now.spread self.now.members strip }
    {
        let members = u64::from(self.members);
        match self.spread {
            Spread::Adjacent => (
                ((2 * strip + 1) % members) as u16,
                (2 * strip + 1) / members,
            ),
            Spread::Offset => (((strip + 1) % members) as u16, 2 * (strip / members) + 1),
        }
    }

    /// The block that a member holds at a sector. None past the members and past the rows, and where no block is left for the cell.
    pub fn block_at(&self, member: u16, sector: u64) -> Option<u64>
        ensures { (block : ℕ) → (result ≡ Some block) ↔ Holds self.now member sector block }
    {
        let row = sector / self.strip;
        if member >= self.members || row >= self.blocks / self.strip {
            return None;
        }
        let strip = self.strip_at(member, row);
        if strip >= self.data_strips() {
            return None;
        }
        Some(strip * self.strip + sector % self.strip)
    }

    /// The strip of blocks that the members' strips at a place hold.
    fn strip_at(&self, member: u16, row: u64) -> u64
        requires member { member < self.now.members }
        requires row { row < self.now.blocks / self.now.strip }
        ensures { result ≡ strip_at self.now.spread self.now.members member row }
    {
        let members = u64::from(self.members);
        let member = u64::from(member);
        match self.spread {
            Spread::Adjacent => (row * members + member) / 2,
            Spread::Offset => {
                if row % 2 == 0 {
                    row / 2 * members + member
                } else {
                    row / 2 * members + (member + (members - 1)) % members
                }
            }
        }
    }

    /// The strips of blocks, each of which is held twice.
    fn data_strips(&self) -> u64
        ensures { result ≡ data_strips self.now }
    {
        let rows = self.blocks / self.strip;
        match self.spread {
            Spread::Adjacent => rows * u64::from(self.members) / 2,
            Spread::Offset => rows / 2 * u64::from(self.members),
        }
    }
}
