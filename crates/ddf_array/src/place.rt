//! One position of an element on its disk. A place past the seat's floor counts as absent: a write there would go over the records of the disk.
ghost use Rattle.std.specs.Prelude.{◌≡◌, ◌+◌, Some};
ghost use Rattle.ddf_array.specs.Places.{is_available, site, Ends};

use crate::Site;

/// Where the extent of one position of an element lies (profile).
#[derive(Clone, Copy, Default, PartialEq, Eq)]
pub struct Place {
    /// The slot of its disk. None where its member has no seat, and where the extent ends past the seat's floor.
    pub slot: Option<usize>,
    /// The LBA of the extent's first sector.
    pub start: u64,
    /// Whether the extent holds what its place in the element asks for.
    pub synced: bool,
    /// The rows that a rebuild has set so far.
    pub row: u64,
}

impl Place {
    /// Whether the extent holds what it should and its disk is there.
    pub fn is_available(&self) -> bool
        ensures { result ≡ is_available self.now }
    {
        self.synced && self.slot.is_some()
    }

    /// Where a sector of the extent lies, from 0 on, if the place is available.
    pub fn site(&self, sector: u64) -> Option<Site>
        requires { Ends self.now (sector + 1) }
        ensures { result ≡ site self.now sector }
    {
        match self.slot {
            Some(slot) if self.synced => Some(Site {
                slot,
                lba: self.start + sector,
            }),
            _ => None,
        }
    }
}
