//! How the disks of a bay are opened.

/// What may be done to the disks of a bay.
#[derive(Clone, Copy, PartialEq, Eq)]
pub(crate) enum Access {
    /// They are read. Each write fails.
    Read,
    /// They are read and written.
    ReadWrite,
}
