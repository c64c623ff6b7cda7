//! A sector of a slot that is seen as another one.
ghost use Rattle.std.specs.Prelude.{◌≡◌, ◌==◌, ◌+◌, length};
ghost use Rattle.ddf_hidden_logs.specs.Masks.{hidden_by, is_either, is_place, is_sector, other_of, turned_by, turns_by};

use ddf_bytes::{Sector, be16};
use ddf_tables::layout::LOG_COUNT_AT;

/// The front of a disk's bad block log, and what is seen of it. At its place in either copy each of the two sectors is seen as the other one.
#[derive(Clone, Copy)]
pub(crate) struct Mask {
    /// The LBA of the primary header.
    pub primary: u64,
    /// The LBA of the secondary header.
    pub secondary: u64,
    /// Sectors from a header to the log.
    pub offset: u32,
    /// What stands there.
    pub below: Sector,
    /// What is seen there.
    pub shown: Sector,
}

impl Mask {
    /// Whether a log begins at a sector.
    fn is_place(&self, lba: u64) -> bool
        ensures { result ≡ is_place self.now lba }
    {
        stands_behind(self.primary, self.offset, lba)
            || stands_behind(self.secondary, self.offset, lba)
    }

    fn is_either(&self, sector: &Sector) -> bool
        ensures { result ≡ is_either self.now sector.now }
    {
        *sector == self.below || *sector == self.shown
    }

    /// Whether a sector is seen as another one.
    #[tactic(auto, unfolding(crate::specs::Masks::turns_by))]
    pub fn turns(&self, lba: u64, sector: &Sector) -> bool
        ensures { result ≡ turns_by self.now lba sector.now }
    {
        self.is_place(lba)
            && self.is_either(sector)
            && (is_sector(&self.below) && is_sector(&self.shown))
    }

    /// Turns a sector in its place into the one that it is seen as.
    pub fn turn(&self, lba: u64, sector: &mut Sector)
        ensures { sector.new ≡ turned_by self.now lba sector.old }
    {
        if self.turns(lba, sector) {
            *sector = self.other(sector);
        }
    }

    /// How many entries the log has, where it shows none.
    pub fn hidden(&self) -> u16
        ensures { result ≡ hidden_by self.now }
    {
        if be16(&self.shown, LOG_COUNT_AT) == 0 {
            be16(&self.below, LOG_COUNT_AT)
        } else {
            0
        }
    }

    fn other(&self, sector: &Sector) -> Sector
        ensures { result ≡ other_of self.now sector.now }
    {
        if *sector == self.below {
            self.shown
        } else {
            self.below
        }
    }
}

/// Whether a sector stands so many sectors behind a header.
fn stands_behind(header: u64, offset: u32, lba: u64) -> bool
    ensures { result ≡ (lba == header + offset) }
{
    header <= lba && lba - header == u64::from(offset)
}

/// Whether bytes are a sector's: they always are.
fn is_sector(bytes: &Sector) -> bool
    ensures { result ≡ is_sector bytes.now }
{
    fills_sector(bytes)
}

fn fills_sector(bytes: &[u8]) -> bool
    ensures { result ≡ (length bytes.now == 512) }
{
    bytes.len() == 512
}
