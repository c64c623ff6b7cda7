//! A path is opened, or it is told why it can't be.
ghost use Rattle.std.specs.Prelude.{◌≡◌, ◌<◌, ◌^◌, false, is_ok, IfOk};

use crate::access::Access;
use crate::transfer::sectors_of;
use std::fs::{File, FileType};
use std::io::ErrorKind;
use std::os::unix::fs::FileTypeExt;
use std::rt::Files;
use std::{fs, io};

/// Folders, pipes and sockets are no disks, and a pipe that nobody writes to would be waited for.
fn check_kind(kind: FileType) -> io::Result<()> {
    if kind.is_dir() {
        return Err(io::Error::from(ErrorKind::IsADirectory));
    }
    if kind.is_fifo() || kind.is_socket() {
        return Err(io::Error::from(ErrorKind::NotSeekable));
    }
    Ok(())
}

/// Opens a path, and finds its size in sectors.
fn open_path<R: Files>(rt: &R, access: Access, path: &str) -> io::Result<(R::File, u64)>
    ensures { IfOk result (λ disk. disk.1 < 2 ^ 55) }
{
    check_kind(fs::metadata(rt, path)?.file_type())?;
    let mut file = File::options()
        .read(true)
        .write(access == Access::ReadWrite)
        .open(rt, path)?;
    let size = sectors_of(&mut file)?;
    Ok((file, size))
}

/// The opened file and its size, or why it can't be opened, and 0.
pub(crate) fn open_slot<R: Files>(
    rt: &R,
    access: Access,
    path: &str,
) -> (Result<R::File, io::Error>, u64)
    ensures small { result.1 < 2 ^ 55 }
    ensures closed { is_ok result.0 ≡ false → result.1 ≡ 0 }
{
    match open_path(rt, access, path) {
        Ok((file, size)) => (Ok(file), size),
        Err(why) => (Err(why), 0),
    }
}
