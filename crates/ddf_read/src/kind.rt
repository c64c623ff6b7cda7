//! The two kinds of sources of a block: its copies, and the rest of its rows. Copies come first, since parity says nothing while an array is
//! marked.

/// The two kinds of sources that a block has, in the order in which they are tried.
#[derive(Clone, Copy)]
pub(crate) enum Kind {
    /// Its available cells.
    Copies,
    /// The other cells of its rows.
    Rows,
}
