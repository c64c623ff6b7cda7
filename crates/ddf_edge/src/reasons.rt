//! Why a disk that a command would write to can't be opened, and what is to be done: never to leave it out, for then it is lost.
//! docs/FAULTS.md#advice-to-leave-out-a-locked-disk
use std::io::ErrorKind;
use std::{fmt, io};

/// The system's number for what nobody may do, such as to open an immutable file for writing.
const NOT_PERMITTED: i32 = 1;

/// Why a disk can't be opened for writing.
#[derive(Clone, Copy, PartialEq, Eq, Drop)]
pub enum Reason {
    /// Another program holds a lock on it.
    Locked,
    /// It is mounted, swapped to, protected from writes, or part of another device.
    Busy,
    /// Whoever started the program may not write to it.
    Denied,
    /// It is immutable.
    Immutable,
    /// It is on a file system that is mounted for reading alone.
    ReadOnly,
    /// There is no such file.
    Missing,
    /// Any other.
    Other,
}

/// The reason that the system's error gives.
pub fn reason_of(why: &io::Error) -> Reason {
    match why.kind() {
        ErrorKind::WouldBlock => Reason::Locked,
        ErrorKind::ResourceBusy | ErrorKind::ExecutableFileBusy => Reason::Busy,
        ErrorKind::PermissionDenied if why.raw_os_error() == Some(NOT_PERMITTED) => {
            Reason::Immutable
        }
        ErrorKind::PermissionDenied => Reason::Denied,
        ErrorKind::ReadOnlyFilesystem => Reason::ReadOnly,
        ErrorKind::NotFound => Reason::Missing,
        _ => Reason::Other,
    }
}

impl Reason {
    /// What is to be done.
    fn way_out(&self) -> &'static str {
        match self {
            Reason::Locked => {
                "another command uses the disk: wait until it is done, and give this one again"
            }
            Reason::Busy => {
                "the disk is in use: free it (umount, swapoff, mdadm --stop, blockdev --setrw), and give the command again"
            }
            Reason::Denied => "you may not write to the disk: be root, or own it",
            Reason::Immutable => "nobody may write to the disk: chattr -i takes that away",
            Reason::ReadOnly => {
                "the disk is on a file system that is mounted for reading alone: remount it, or work on a copy; show and read need no more"
            }
            Reason::Missing => "there is no such file: check its path",
            Reason::Other => "the disk can't be opened",
        }
    }
}

impl fmt::Display for Reason {
    fn fmt<W: fmt::Write>(&self, f: &mut fmt::Formatter<W>) -> fmt::Result {
        let way = self.way_out();
        write!(
            f,
            "{way}. Don't leave it out of the arguments to get on: its group would go on without it for good"
        )
    }
}
