//! Why a disk can't be moved.

/// Why a disk can't be moved.
#[derive(Clone, Copy)]
pub enum Obstacle {
    /// Its workspace doesn't end before its anchor, or has no room for both copies and for the sectors that stay at its front.
    Workspace,
    /// A header or a section lies where its copies would.
    Records,
    /// Diagnostic space or a vendor's log lies at the front of its workspace, where writes without a disk are prepared.
    Front,
    /// An extent lies where its copies would, or at the front of its workspace.
    Extents,
    /// It has a record that isn't understood, and records of another size.
    Unknown,
    /// One of its elements has more members than a record has room for.
    Members,
}
