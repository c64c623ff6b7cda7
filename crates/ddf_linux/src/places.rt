//! Which sectors of a slot are turned, by its anchor.
ghost use Rattle.std.specs.Prelude.{◌≡◌, ◌≤◌};
ghost use Rattle.ddf_update.specs.NewLayouts.{least_sectors};
ghost use Rattle.ddf_linux.specs.Places.{places_of, new_places, copies_of, constant_at, copies_constant, lie_from, names, stands_at};

use crate::layout::Layout;
use crate::records::Records;
use crate::zeros::SectorZeros;
use ddf_bytes::{Sector, be32, be64};
use ddf_header::layout::{PRIMARY_LBA_AT, SECONDARY_LBA_AT};
use ddf_header::{HEADER_SIGNATURE, HeaderKind, decode};
use ddf_update::{NewLayout, new_geometry};

/// The two copies of a slot, as its anchor places them.
#[derive(Clone, Copy)]
pub(crate) struct Copies {
    /// The LBA of the primary header.
    pub primary: u64,
    /// The LBA of the secondary header.
    pub secondary: u64,
    /// The records of each copy.
    pub layout: Layout,
}

/// Which sectors of a slot are turned.
#[derive(Clone, Copy)]
pub(crate) struct Places {
    /// The LBA of the anchor.
    pub anchor: u64,
    /// The LBA of the primary header that the anchor names, be it sound or not.
    pub primary: u64,
    /// The LBA of the secondary header that it names.
    pub secondary: u64,
    /// By what the two CRCs of the anchor differ.
    pub constant: u32,
    /// The copies, if the anchor is a sound header.
    pub copies: Option<Copies>,
}

impl Copies {
    /// What is added to the CRC of a sector that begins with a signature, if it is one of those that are turned.
    fn constant_at(&self, lba: u64, signature: u32) -> Option<u32>
        ensures { result ≡ copies_constant self.now lba signature }
    {
        let records = self.layout.records_with(signature)?;
        if self.stands_at(&records, lba) {
            Some(records.constant)
        } else {
            None
        }
    }

    /// Whether a sector is the first of one of the records of a kind, in either copy.
    fn stands_at(&self, records: &Records, lba: u64) -> bool
        ensures { result ≡ stands_at self.now records.now lba }
    {
        records.is_first(self.primary, lba) || records.is_first(self.secondary, lba)
    }
}

impl Places {
    /// The places of a slot whose last sector, turned, is this anchor.
    pub fn new(zeros: &SectorZeros, last: u64, anchor: &Sector) -> Places
        ensures { result ≡ places_of last anchor.now }
    {
        Places {
            anchor: last,
            primary: be64(anchor, PRIMARY_LBA_AT),
            secondary: be64(anchor, SECONDARY_LBA_AT),
            constant: zeros.constant(1),
            copies: copies_of(zeros, anchor),
        }
    }

    /// The places of a new disk of a layout and of so many sectors.
    pub fn of_new_disk(zeros: &SectorZeros, layout: NewLayout, size: u64) -> Places
        requires { least_sectors layout ≤ size }
        ensures { result ≡ new_places layout size }
    {
        let primary = size - layout.primary_back();
        let secondary = size - layout.secondary_back();
        Places {
            anchor: size - 1,
            primary,
            secondary,
            constant: zeros.constant(1),
            copies: Some(Copies {
                primary,
                secondary,
                layout: Layout::new(zeros, &new_geometry(layout, size)),
            }),
        }
    }

    /// Whether all places lie at or behind an LBA.
    pub fn lie_from(&self, lba: u64) -> bool
        ensures { result ≡ lie_from self.now lba }
    {
        self.anchor >= lba
            && self
                .copies
                .is_none_or(|copies| copies.primary >= lba && copies.secondary >= lba)
    }

    /// Whether an anchor names the two headers where they are.
    #[tactic(auto, unfolding(crate::specs::Places::names))]
    fn names(&self, anchor: &Sector) -> bool
        ensures { result ≡ names self.now anchor.now }
    {
        be64(anchor, PRIMARY_LBA_AT) == self.primary
            && be64(anchor, SECONDARY_LBA_AT) == self.secondary
    }

    /// What is added to the CRC of a sector, if it is one of those that are turned. An anchor that names other places is that of a
    /// disk whose copies were moved.
    #[tactic(auto, unfolding(crate::specs::Places::constant_at))]
    pub fn constant_at(&self, lba: u64, sector: &Sector) -> Option<u32>
        ensures { result ≡ constant_at self.now lba sector.now }
    {
        let signature = be32(sector, 0);
        if signature == HEADER_SIGNATURE && lba == self.anchor {
            if self.names(sector) {
                return Some(self.constant);
            }
            return None;
        }
        match &self.copies {
            Some(copies) => copies.constant_at(lba, signature),
            None => None,
        }
    }
}

/// The copies that an anchor places, if it is a sound header.
fn copies_of(zeros: &SectorZeros, anchor: &Sector) -> Option<Copies>
    ensures { result ≡ copies_of anchor.now }
{
    match decode(anchor, HeaderKind::Anchor) {
        Ok(header) => Some(Copies {
            primary: header.primary_lba,
            secondary: header.secondary_lba,
            layout: Layout::new(zeros, &header.geometry),
        }),
        Err(_) => None,
    }
}
