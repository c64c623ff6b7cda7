//! The primary levels: which codes of the standard are served, with how many members and blocks. Others are refused: guessed at, their blocks
//! would be read at wrong places. docs/PLACING.md#primary-levels
ghost use Rattle.std.specs.Prelude.{◌≡◌, ◌≤◌, ◌^◌};
ghost use Rattle.ddf_primary.specs.Levels.{served_layout, takes_members, takes_blocks};
ghost use Rattle.ddf_primary.specs.Needs.{is_on_every, is_on_two, keeps_copies, keeps_parity, need_by};

use crate::{Need, ParityLayout, ShapeFault};
use ddf_mirror1e::Spread;

/// How an element lays its blocks over its members: a primary level, with what its qualifier says.
#[derive(Clone, Copy, PartialEq, Eq)]
pub enum Layout {
    /// RAID 0: strips over all members.
    Raid0,
    /// RAID 1, simple or multi: every member holds every block.
    Raid1,
    /// RAID 4 or 5: strips over all members but one, which holds the row's parity.
    Parity(ParityLayout),
    /// JBOD: the blocks of one member.
    Jbod,
    /// Concatenation: one member after another.
    Concatenation,
    /// RAID 1E: each block on two members, of which one stands behind the other.
    Mirror(Spread),
}

impl Layout {
    /// The most blocks that a member's part may have (profile).
    const MOST_BLOCKS: u64 = 1 << 48;

    /// The layout of a level and qualifier, by the standard's codes.
    pub(crate) fn from_codes(level: u8, qualifier: u8) -> Result<Layout, ShapeFault>
        ensures { result ≡ served_layout level qualifier }
    {
        match (level, qualifier) {
            (0x00, _) => Ok(Layout::Raid0),
            (0x01, 0 | 1) => Ok(Layout::Raid1),
            (0x04, 0) => Ok(Layout::Parity(ParityLayout::Raid4First)),
            (0x04, 1) => Ok(Layout::Parity(ParityLayout::Raid4Last)),
            (0x05, 0) => Ok(Layout::Parity(ParityLayout::Raid5ZeroRestart)),
            (0x05, 2) => Ok(Layout::Parity(ParityLayout::Raid5LastRestart)),
            (0x05, 3) => Ok(Layout::Parity(ParityLayout::Raid5LastContinuation)),
            (0x11, 0) => Ok(Layout::Mirror(Spread::Adjacent)),
            (0x11, 1) => Ok(Layout::Mirror(Spread::Offset)),
            (0x01 | 0x04 | 0x05 | 0x11, _) => Err(ShapeFault::Qualifier(qualifier)),
            (0x0F, _) => Ok(Layout::Jbod),
            (0x1F, _) => Ok(Layout::Concatenation),
            _ => Err(ShapeFault::Level(level)),
        }
    }

    /// Whether each member holds each block, at the same sector.
    pub fn is_on_every(self) -> bool
        ensures { result ≡ is_on_every self }
    {
        matches!(self, Layout::Raid1)
    }

    /// Whether each block is on two members, of which one stands behind the other.
    pub fn is_on_two(self) -> bool
        ensures { result ≡ is_on_two self }
    {
        matches!(self, Layout::Mirror(_))
    }

    /// Whether each block is on more than one member.
    pub fn keeps_copies(self) -> bool
        ensures { result ≡ keeps_copies self }
    {
        matches!(self, Layout::Raid1 | Layout::Mirror(_))
    }

    /// Whether each row has its parity.
    pub fn keeps_parity(self) -> bool
        ensures { result ≡ keeps_parity self }
    {
        matches!(self, Layout::Parity(_))
    }

    /// Which members an element needs.
    pub fn need(self) -> Need
        ensures { result ≡ need_by self }
    {
        match self {
            Layout::Raid1 => Need::One,
            Layout::Parity(_) => Need::AllButOne,
            Layout::Mirror(spread) => Need::Neighbours(spread),
            Layout::Raid0 | Layout::Jbod | Layout::Concatenation => Need::All,
        }
    }

    /// Whether the layout is made of this many members.
    pub(crate) fn takes_members(self, members: u16) -> bool
        ensures { result ≡ takes_members self members }
    {
        match self {
            Layout::Raid0 | Layout::Concatenation => members >= 1,
            Layout::Raid1 | Layout::Parity(_) => members >= 2,
            Layout::Jbod => members == 1,
            Layout::Mirror(_) => members >= 3,
        }
    }

    /// Whether members may have this many blocks each.
    pub(crate) fn takes_blocks(self, strip: u64, blocks: u64) -> bool
        requires { strip ≤ 2 ^ 31 }
        ensures { result ≡ takes_blocks self strip blocks }
    {
        let least = match self {
            Layout::Raid0 | Layout::Parity(_) => strip,
            Layout::Raid1 | Layout::Jbod | Layout::Concatenation => 1,
            Layout::Mirror(_) => 2 * strip,
        };
        least <= blocks && blocks <= Layout::MOST_BLOCKS
    }
}
