//! An element as numbers: from a block to its cell and back, for every level. That both ways agree is what keeps a write from going over
//! another block. docs/PLACING.md#primary-levels
ghost use Rattle.std.specs.Prelude.{◌≡◌, ◌≢◌, ◌↔◌, ℕ, ◌<◌, ◌≤◌, ◌+◌, ◌*◌, ◌/◌, ◌%◌, ◌^◌};
ghost use Rattle.std.specs.Prelude.{[], ◌∷◌, length, slice_get, option_map, is_some, IfOk, IfSome};

use crate::strip::{block_of_strip, strip_of_block};
use crate::{Cell, Layout, ParityLayout, ShapeFault, Twins};
use ddf_mirror1e::{Mirror1e, Spread};
use std::marker::Model;

/// One element: a primary level over members, which says where each of its blocks lies.
#[derive(Clone, Copy, PartialEq, Eq)]
pub struct Shape {
    layout: Layout,
    members: u16,
    strip: u64,
    blocks: u64,
}

impl Model for Shape {
    ghost use Rattle.ddf_primary.specs.Placement.{Placement, placement};
    ghost use Rattle.ddf_primary.specs.Levels.{IsShape};

    ghost Value = { Placement };

    ghost view = { λ s. placement s.layout s.members s.strip s.blocks };

    ghost invariant = { λ s. IsShape (placement s.layout s.members s.strip s.blocks) };

    ghost inverse = { λ p. record { layout = p.layout; members = p.members; strip = p.strip; blocks = p.blocks } };
}

impl Shape {
    ghost use Rattle.ddf_primary.specs.Levels.{shape_of, IsShape};
    ghost use Rattle.ddf_primary.specs.Needs.{is_on_two};
    ghost use Rattle.ddf_primary.specs.Copies.{copies_of, sector_on};
    ghost use Rattle.ddf_primary.specs.Cells.{cells, columns_by, parity_member, Holds, depth_of, height_of, unit_of, rows_of, twin_of};
    ghost use Rattle.ddf_mirror1e.specs.Mirror.{mirror};

    /// The shape of an element: its primary level and qualifier, its number of members, the sectors
    /// of a strip, and the blocks per member.
    ///
    /// # Errors
    /// The first fault, in the order of `ShapeFault`.
    pub fn new(
        level: u8,
        qualifier: u8,
        members: u16,
        strip: u64,
        blocks: u64,
    ) -> Result<Shape, ShapeFault>
        requires low { 1 ≤ strip }
        requires high { strip ≤ 2 ^ 31 }
        ensures value { result ≡ shape_of level qualifier members strip blocks }
        ensures sound { IfOk result IsShape }
    {
        let layout = Layout::from_codes(level, qualifier)?;
        if !layout.takes_members(members) {
            return Err(ShapeFault::MemberCount(members));
        }
        if !layout.takes_blocks(strip, blocks) {
            return Err(ShapeFault::Blocks(blocks));
        }
        Ok(Shape {
            layout,
            members,
            strip,
            blocks,
        })
    }

    /// The layout of the element's blocks.
    pub fn layout(&self) -> Layout
        ensures { result ≡ self.now.layout }
    {
        self.layout
    }

    /// The sectors of a strip.
    pub fn strip(&self) -> u64
        ensures { result ≡ self.now.strip }
    {
        self.strip
    }

    /// The blocks that the element holds.
    pub fn capacity(&self) -> u64
        ensures value { result ≡ length (cells self.now) }
        ensures bound { result ≤ self.now.members * self.now.blocks }
        ensures sound { IsShape self.now }
    {
        match self.layout {
            Layout::Concatenation => u64::from(self.members) * self.blocks,
            Layout::Mirror(spread) => self.as_mirror(spread).capacity(),
            _ => u64::from(self.columns()) * self.depth(),
        }
    }

    /// The blocks of one data row.
    pub fn unit(&self) -> u64
        ensures { result ≡ unit_of self.now }
    {
        u64::from(self.columns()) * self.strip
    }

    /// The whole data rows. Concatenated members count as one.
    pub fn rows(&self) -> u64
        ensures value { result ≡ rows_of self.now }
        ensures fits { unit_of self.now * result ≤ length (cells self.now) }
    {
        match self.layout {
            Layout::Concatenation => u64::from(self.members) * self.blocks / self.strip,
            Layout::Mirror(_) => self.blocks / self.strip / 2,
            _ => self.blocks / self.strip,
        }
    }

    /// The sectors of each member that hold blocks or parity.
    pub fn depth(&self) -> u64
        ensures value { result ≡ depth_of self.now }
        ensures bound { result ≤ self.now.blocks }
    {
        match self.layout {
            Layout::Raid0 | Layout::Parity(_) | Layout::Mirror(Spread::Adjacent) => {
                self.blocks / self.strip * self.strip
            }
            Layout::Mirror(Spread::Offset) => self.blocks / self.strip / 2 * 2 * self.strip,
            Layout::Raid1 | Layout::Jbod | Layout::Concatenation => self.blocks,
        }
    }

    /// The sectors of each member that a data row takes.
    pub fn height(&self) -> u64
        ensures value { result ≡ height_of self.now }
        ensures some { 0 < result }
        ensures small { result ≤ 2 ^ 32 }
        ensures sound { IsShape self.now }
    {
        match self.layout {
            Layout::Raid0
            | Layout::Raid1
            | Layout::Parity(_)
            | Layout::Jbod
            | Layout::Concatenation => self.strip,
            Layout::Mirror(_) => 2 * self.strip,
        }
    }

    /// The cell of a block. For RAID 1 it is that of member 0, and every member holds the block at
    /// the same sector. For RAID 1E it is the first copy.
    pub fn place(&self, block: u64) -> Cell
        requires { block < length (cells self.now) }
        ensures cell { slice_get (cells self.now) block ≡ Some (result.member, result.sector) }
        ensures holds { Holds self.now result.member result.sector block }
        ensures row { result.row ≡ result.sector / height_of self.now }
        ensures member { result.member < self.now.members }
        ensures sector { result.sector < self.now.blocks }
    {
        let (member, sector) = self.member_and_sector(block);
        Cell {
            member,
            sector,
            row: sector / self.height(),
        }
    }

    /// The cell of a block's second copy. None for the levels that don't hold a block on two members.
    pub fn twin(&self, block: u64) -> Option<Cell>
        requires { block < length (cells self.now) }
        ensures cell { option_map (λ cell. (cell.member, cell.sector)) result ≡ twin_of self.now block }
        ensures holds { IfSome result (λ cell. Holds self.now cell.member cell.sector block) }
        ensures apart { IfSome result (λ cell. (own sector : ℕ) → slice_get (cells self.now) block ≡ Some (own, sector) → own ≢ cell.member) }
        ensures row { IfSome result (λ cell. cell.row ≡ cell.sector / height_of self.now) }
        ensures member { IfSome result (λ cell. cell.member < self.now.members) }
        ensures sector { IfSome result (λ cell. cell.sector < self.now.blocks) }
    {
        match self.layout {
            Layout::Mirror(spread) => {
                let second = self.as_mirror(spread).second(block);
                Some(Cell {
                    member: second.member,
                    sector: second.sector,
                    row: second.sector / self.height(),
                })
            }
            _ => None,
        }
    }

    /// Both cells of a block, in the order of their members. None for the levels that don't hold a block on two members.
    pub fn twins(&self, block: u64) -> Option<Twins>
        requires { block < length (cells self.now) }
        ensures two { is_some result ≡ is_on_two self.now.layout }
        ensures cells { IfSome result (λ twins. copies_of self.now block ≡ (twins.low.member, twins.low.sector) ∷ (twins.high.member, twins.high.sector) ∷ []) }
        ensures low { IfSome result (λ twins. twins.low.sector < self.now.blocks) }
        ensures high { IfSome result (λ twins. twins.high.sector < self.now.blocks) }
    {
        let first = self.place(block);
        let Some(second) = self.twin(block) else {
            return None;
        };
        if first.member < second.member {
            return Some(Twins {
                low: first,
                high: second,
            });
        }
        Some(Twins {
            low: second,
            high: first,
        })
    }

    /// The sector at which a member holds a block, if it does.
    pub fn sector_on(&self, member: u16, block: u64) -> Option<u64>
        requires { block < length (cells self.now) }
        ensures sector { result ≡ sector_on self.now member block }
        ensures within { IfSome result (λ sector. sector < self.now.blocks) }
    {
        let (own, sector) = self.member_and_sector(block);
        let holds = if self.layout.is_on_every() {
            member < self.members
        } else {
            own == member
        };
        if holds {
            return Some(sector);
        }
        match self.twin(block) {
            Some(twin) if twin.member == member => Some(twin.sector),
            _ => None,
        }
    }

    /// The block that a member holds at a sector. None where the cell holds parity or nothing, or lies past the
    /// members or past the rows.
    pub fn block_at(&self, member: u16, sector: u64) -> Option<u64>
        ensures { (block : ℕ) → (result ≡ Some block) ↔ Holds self.now member sector block }
    {
        if member >= self.members || sector >= self.depth() {
            return None;
        }
        match self.layout {
            Layout::Raid0 => Some(self.striped_block(member, sector)),
            Layout::Parity(parity) => self.parity_block(parity, member, sector),
            Layout::Raid1 | Layout::Jbod => Some(sector),
            Layout::Concatenation => Some(u64::from(member) * self.blocks + sector),
            Layout::Mirror(spread) => self.as_mirror(spread).block_at(member, sector),
        }
    }

    /// The member with the parity of a row. None for the levels without parity.
    pub fn parity_of(&self, row: u64) -> Option<u16>
        requires { row < rows_of self.now }
        ensures { result ≡ parity_member self.now row }
    {
        match self.layout {
            Layout::Parity(parity) => Some(parity.parity_of(self.members, row)),
            _ => None,
        }
    }

    /// The data strips of a row.
    fn columns(&self) -> u16
        ensures { result ≡ columns_by self.now.layout self.now.members }
    {
        match self.layout {
            Layout::Raid0 | Layout::Mirror(_) => self.members,
            Layout::Parity(_) => self.members - 1,
            Layout::Raid1 | Layout::Jbod | Layout::Concatenation => 1,
        }
    }

    fn member_and_sector(&self, block: u64) -> (u16, u64)
        requires { block < length (cells self.now) }
        ensures { slice_get (cells self.now) block ≡ Some result }
    {
        match self.layout {
            Layout::Raid0 => {
                let strip = strip_of_block(block, self.strip, self.members);
                (strip.number, strip.sector)
            }
            Layout::Parity(parity) => {
                let strip = strip_of_block(block, self.strip, self.members - 1);
                let on = parity.parity_of(self.members, strip.row);
                let member = parity.data_member(self.members, on, strip.number);
                (member, strip.sector)
            }
            Layout::Raid1 | Layout::Jbod => (0, block),
            Layout::Concatenation => ((block / self.blocks) as u16, block % self.blocks),
            Layout::Mirror(spread) => {
                let first = self.as_mirror(spread).first(block);
                (first.member, first.sector)
            }
        }
    }

    /// The same numbers as RAID 1E.
    fn as_mirror(&self, spread: Spread) -> Mirror1e
        requires { self.now.layout ≡ Layout.Mirror spread }
        ensures { result ≡ mirror spread self.now.members self.now.strip self.now.blocks }
    {
        Mirror1e::of(spread, self.members, self.strip, self.blocks)
    }

    /// The block at a sector of the data strips of this number.
    fn striped_block(&self, number: u16, sector: u64) -> u64
        requires number { number < columns_by self.now.layout self.now.members }
        requires sector { sector < self.now.blocks }
        ensures { let columns = columns_by self.now.layout self.now.members in
            result ≡ (sector / self.now.strip * columns + number) * self.now.strip + sector % self.now.strip }
    {
        block_of_strip(number, sector, self.strip, self.columns())
    }

    fn parity_block(&self, parity: ParityLayout, member: u16, sector: u64) -> Option<u64>
        requires layout { self.now.layout ≡ Layout.Parity parity }
        requires member { member < self.now.members }
        requires sector { sector < depth_of self.now }
        ensures { (block : ℕ) → (result ≡ Some block) ↔ Holds self.now member sector block }
    {
        let on = parity.parity_of(self.members, sector / self.strip);
        if member == on {
            return None;
        }
        let number = parity.strip_of(self.members, on, member);
        Some(self.striped_block(number, sector))
    }
}
