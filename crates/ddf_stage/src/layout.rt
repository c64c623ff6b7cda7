//! Where the fields of a gate stand in its sector: offsets in bytes (profile).

/// Offset of the GUID of the array.
pub const ARRAY_AT: usize = 8;

/// Offset of the marker, `RDDFSTAG`.
pub const MARKER_AT: usize = 32;

/// Offset of the flag that tells an open gate.
pub const OPEN_AT: usize = 40;

/// Offset of the number of the block.
pub const BLOCK_AT: usize = 48;

/// Offset of the bits of the elements whose parity is staged.
pub const PARITIES_AT: usize = 56;
