//! The disks of a command are kept from other programs: one that it reads from writers, one that it may write to from all. Two programs that
//! write at once are an array lost. docs/COMMANDS.md#disks-and-the-system
ghost use Rattle.std.specs.Prelude.{◌≡◌, length};

use crate::in_use::use_of;
use crate::one_line::OneLine;
use crate::patience::{Patience, TRIES};
use ddf_bay::{Bay, FileBay};
use ddf_bytes::NoMemory;
use ddf_heard::Heard;
use std::fs::{File, Metadata, TryLockError};
use std::io;
use std::io::ErrorKind;
use std::os::unix::fs::FileTypeExt;
use std::rt::{Clock, Files};

/// What a command may do to its disks.
#[derive(Clone, Copy, PartialEq, Eq)]
pub enum Use {
    /// It reads them.
    Read,
    /// It reads and writes them.
    Write,
}

/// What is said of a disk on which another program holds a lock.
const LOCKED: &str = "another program holds a lock on it";

/// Claims each disk of the bay for this program, as long as the bay lasts. One that is in use is closed; a command that reads alone
/// tries for a while before. Standard error says once where no lock can be had.
pub fn claim_all<R>(
    rt: &R,
    bay: &mut FileBay<Heard<R>>,
    paths: &[String],
    wanted: Use,
) -> Result<(), NoMemory>
where
    R: Files<File = File> + Clock + Eprint + AllocGlobal + Clone + Drop,
    requires { length paths.now ≡ length (⟦<FileBay<Heard<R>> as Bay>⟧.disks bay.old).sizes }
    ensures { length (⟦<FileBay<Heard<R>> as Bay>⟧.disks bay.new).sizes ≡ length (⟦<FileBay<Heard<R>> as Bay>⟧.disks bay.old).sizes }
{
    let mut told = false;
    let patience = Patience::new(rt);
    for (slot, path) in paths.iter().enumerate() {
        let claim = match bay.file(slot) {
            Some(file) => claim(rt, file.file(), wanted, &patience),
            None => continue,
        };
        match claim {
            Ok(None) => {}
            Ok(Some(why)) => {
                if !told {
                    tell_unlocked(rt, slot, path, why);
                }
                told = true;
            }
            Err(why) if why.kind() == ErrorKind::OutOfMemory => return Err(NoMemory),
            Err(why) => bay.close(slot, why),
        }
    }
    Ok(())
}

/// Whether a disk was closed since another program holds a lock on it.
pub fn is_locked(why: &io::Error) -> bool {
    why.kind() == ErrorKind::WouldBlock
}

/// Says that nothing keeps a disk from other programs.
fn tell_unlocked<R: Eprint>(rt: &R, slot: usize, path: &str, why: io::Error) {
    let path = OneLine(path);
    let _ = eprintln!(rt;
        "ddf: slot {slot}: {path} can't be locked, so nothing keeps other programs from it: {why}"
    );
}

/// Claims a disk, or answers why it can't be locked. One that is in use is an error, and so is a character device, which is no disk.
fn claim<R>(rt: &R, file: &File, wanted: Use, patience: &Patience) -> io::Result<Option<io::Error>>
where
    R: Files<File = File> + Clock + AllocGlobal + Clone + Drop,
{
    let metadata = file.metadata()?;
    if metadata.file_type().is_char_device() {
        let message = "it is a character device";
        return Err(io::Error::new(ErrorKind::InvalidInput, message));
    }
    let unlocked = match wanted {
        Use::Read => lock_in_time(rt, file, &metadata, patience)?,
        Use::Write => lock(file, &metadata, wanted)?,
    };
    if wanted == Use::Write {
        if let Some(message) = use_of(rt, &metadata)? {
            return Err(io::Error::new(ErrorKind::ResourceBusy, message));
        }
    }
    Ok(unlocked)
}

/// Takes the lock of a reader on a disk, and tries again while another program holds one, as long as there is time.
fn lock_in_time<R: Clock>(
    rt: &R,
    file: &File,
    metadata: &Metadata,
    patience: &Patience,
) -> io::Result<Option<io::Error>> {
    for _ in 0..TRIES {
        match lock(file, metadata, Use::Read) {
            Err(why) if is_locked(&why) && patience.waits(rt) => {}
            outcome => return outcome,
        }
    }
    lock(file, metadata, Use::Read)
}

/// Takes the system's lock on a disk, which is given up when the file is dropped, or answers why there is none. One that another
/// program holds is an error.
fn lock(file: &File, metadata: &Metadata, wanted: Use) -> io::Result<Option<io::Error>> {
    let kind = metadata.file_type();
    if !kind.is_file() && !kind.is_block_device() {
        return Ok(None);
    }
    let outcome = match wanted {
        Use::Read => file.try_lock_shared(),
        Use::Write => file.try_lock(),
    };
    match outcome {
        Ok(()) => Ok(None),
        Err(TryLockError::WouldBlock) => Err(io::Error::new(ErrorKind::WouldBlock, LOCKED)),
        Err(TryLockError::Error(why)) => Ok(Some(why)),
    }
}
