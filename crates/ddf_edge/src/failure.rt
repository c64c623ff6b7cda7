//! Why the program ends before its command is done. docs/SCRIPTS.md#statuses
use crate::reasons::Reason;
use ddf_bytes::NoMemory;
use std::{fmt, io};

/// The status where memory ran out.
pub const NO_MEMORY: u8 = 5;

/// The status where a disk failed.
pub const DISK_FAULT: u8 = 3;

/// The status where the input or the output failed, or a file of the system that the program can't do without.
pub const STREAM_FAULT: u8 = 6;

/// Why the program ends before its command is done.
#[derive(Clone, Copy, Drop)]
pub enum Failure {
    /// Memory ran out.
    Memory,
    /// The output failed, and nothing was written to a disk.
    Stream,
    /// The input of a command that takes bytes from it failed: before anything was written, or after pieces that are written.
    Input,
    /// The input of a batch failed, and no line of it was run.
    Batch,
    /// The output failed at the end of a command that may write to disks.
    StreamAfter,
    /// The descriptors of the standard streams can't be kept in use.
    Streams(io::Error),
    /// There are no random numbers for new names.
    Chance(io::Error),
    /// A disk that is named can't be opened, and its group would be changed without it.
    Unopened(Reason),
    /// A disk that is to be read is locked by another program.
    Locked,
    /// Whoever was asked doesn't want the command to go on.
    Declined,
    /// The program was told to be careful, and somebody may want to stop the command.
    Careful,
}

impl Failure {
    /// The exit status.
    pub fn status(&self) -> u8 {
        match self {
            Failure::Memory => NO_MEMORY,
            Failure::Unopened(_) | Failure::Locked | Failure::Declined | Failure::Careful => {
                DISK_FAULT
            }
            Failure::Stream
            | Failure::Input
            | Failure::Batch
            | Failure::StreamAfter
            | Failure::Streams(_)
            | Failure::Chance(_) => STREAM_FAULT,
        }
    }
}

impl From<NoMemory> for Failure {
    fn from(_: NoMemory) -> Failure {
        Failure::Memory
    }
}

/// As the line that standard error gets.
impl fmt::Display for Failure {
    fn fmt<W: fmt::Write>(&self, f: &mut fmt::Formatter<W>) -> fmt::Result {
        match self {
            Failure::Memory => write!(f, "out of memory"),
            Failure::Stream => write!(f, "the output failed"),
            Failure::Input => write!(
                f,
                "standard input failed: nothing was written, or whole pieces of 2048 blocks were; show tells whether the array is marked"
            ),
            Failure::Batch => write!(f, "standard input failed: no line was run"),
            Failure::StreamAfter => write!(
                f,
                "the output failed: what was asked for may have been done; show tells"
            ),
            Failure::Declined => write!(f, "nothing was done"),
            Failure::Careful => write!(
                f,
                "nothing was done, since --careful or DDF_CAREFUL was given; --yes as the first argument does it"
            ),
            Failure::Unopened(reason) => write!(f, "nothing was done: {reason}"),
            Failure::Locked => write!(
                f,
                "nothing was read: another command may be writing to a disk; wait until it is done, and give this one again"
            ),
            Failure::Streams(why) => write!(f, "the standard streams can't be kept apart: {why}"),
            Failure::Chance(why) => write!(
                f,
                "no names can be made without random numbers, and /dev/urandom can't be read: {why}"
            ),
        }
    }
}
