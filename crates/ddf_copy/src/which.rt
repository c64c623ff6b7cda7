//! The primary copy or the secondary one, and where its header stands.
ghost use Rattle.std.specs.Prelude.{◌≡◌};
ghost use Rattle.ddf_copy.specs.Which.{kind_of, other_of, place_of};

use ddf_header::{Header, HeaderKind};

/// One of the two copies of a disk's records.
#[derive(Clone, Copy, PartialEq, Eq)]
pub enum Which {
    /// The copy behind the primary header.
    Primary,
    /// The copy behind the secondary header.
    Secondary,
}

impl Which {
    /// The kind of its header.
    pub fn kind(self) -> HeaderKind
        ensures { result ≡ kind_of self }
    {
        match self {
            Which::Primary => HeaderKind::Primary,
            Which::Secondary => HeaderKind::Secondary,
        }
    }

    /// The LBA at which a header of the disk, as its anchor, says that the copy's header stands.
    pub fn place(self, header: &Header) -> u64
        ensures { result ≡ place_of self header.now }
    {
        match self {
            Which::Primary => header.primary_lba,
            Which::Secondary => header.secondary_lba,
        }
    }

    /// The other copy.
    pub fn other(self) -> Which
        ensures { result ≡ other_of self }
    {
        match self {
            Which::Primary => Which::Secondary,
            Which::Secondary => Which::Primary,
        }
    }
}
