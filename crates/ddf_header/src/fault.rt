//! Why a sector isn't a header. docs/FORMAT.md#what-is-wrong-with-a-header
use ddf_seal::SealFault;

/// Why a sector isn't a header of the kind that was asked for: the first of these, in this order.
#[derive(Clone, Copy, PartialEq, Eq)]
pub enum HeaderFault {
    /// The signature or the CRC is wrong.
    Seal(SealFault),
    /// The revision isn't one of the three that are known.
    Revision,
    /// The open flag of a primary or secondary header is over 0F.
    OpenFlag(u8),
    /// The two headers have one LBA, or one of them has none.
    Place,
    /// The type is that of another header.
    Kind(u8),
    /// The field of the geometry at this offset has a value that it may not have, the first such one.
    Geometry(u16),
}
