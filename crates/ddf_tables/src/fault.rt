//! Why a section isn't a table. Two rows of one name are a fault: each change would have to choose between them.
use ddf_bytes::Guid;
use ddf_seal::SealFault;

/// Why a section isn't the table that was asked for: the first of these, in this order.
#[derive(Clone, Copy, PartialEq, Eq)]
pub enum TableFault {
    /// The signature or the CRC is wrong.
    Seal(SealFault),
    /// The number of rows isn't the one that the header gives, or a log counts more entries than fit (profile).
    Count {
        /// The number in the section.
        stated: u16,
        /// The number of rows that the header gives, or of entries that fit.
        found: u16,
    },
    /// A used disk entry has the reference of an earlier one, or FFFFFFFF, which names no disk: the first such one
    /// (profile).
    TwiceSameReference(u32),
    /// A used array entry has the GUID of an earlier one: the first such one (profile).
    TwiceSameGuid(Guid),
    /// Memory ran out.
    Memory,
}
