//! Why a read or write that goes piece by piece ends early.
use ddf_bytes::SinkFault;
use ddf_read::VolumeFault;

/// Why blocks of an array aren't read or written piece by piece.
#[derive(Clone, Copy, PartialEq, Eq)]
pub enum PieceFault {
    /// Blocks can't be read or written.
    Volume(VolumeFault),
    /// A read of the source failed.
    Source,
    /// The sink takes no more.
    Sink(SinkFault),
}
