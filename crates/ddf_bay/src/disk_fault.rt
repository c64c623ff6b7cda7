//! Which slot failed. No cause is kept, since no promise rests on one.
use thiserror::Error;

/// A disk failed: a call on this slot of a bay answered a failure.
#[derive(Clone, Copy, Debug, PartialEq, Eq, Error)]
#[error("disk {0} failed")]
pub struct DiskFault(pub usize);
