//! What a slot shows of itself: its anchor, the two headers that the anchor names, and its copies.
use ddf_copy::Copies;
use ddf_header::{Header, HeaderFault};

/// What stands where the anchor says that a header is.
#[derive(Clone, Copy, PartialEq, Eq)]
pub enum HeaderView {
    /// A header of the kind.
    Header(Header),
    /// No sector: the disk ends before.
    Room,
    /// No header of the kind.
    Fault(HeaderFault),
}

/// The three headers of a disk, and its copies.
#[derive(Drop)]
pub struct Headers {
    pub anchor: Header,
    pub primary: HeaderView,
    pub secondary: HeaderView,
    pub copies: Copies,
}

/// What a slot shows of itself.
#[derive(Drop)]
pub enum DiskView {
    /// It has no anchor: it has no sector, or its last one has another signature.
    Blank,
    /// Its anchor is wrong.
    Damaged(HeaderFault),
    /// Its headers and copies.
    Headers(Headers),
}
