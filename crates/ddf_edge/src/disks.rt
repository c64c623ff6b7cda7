//! The disks of a command.
ghost use Rattle.std.specs.Prelude.{◌≡◌, ◌≤◌, length, IfOk};

use crate::claims::{Use, claim_all, is_locked};
use crate::help::FIRST_LINE;
use crate::one_line::OneLine;
use ddf_bay::{Bay, FileBay};
use ddf_bytes::NoMemory;
use ddf_heard::Heard;
use ddf_words::Command;
use std::fs::File;
use std::io;
use std::io::ErrorKind;
use std::rt::{Clock, Files};

/// Opens the disks of a command: for reading alone, or for writing too where the command may write. They are kept from other
/// programs as long as the bay lasts. Standard error names each that could not be opened, and why.
pub fn open_disks<R>(
    rt: &R,
    paths: &[String],
    command: &Command,
) -> Result<FileBay<Heard<R>>, NoMemory>
where
    R: Files<File = File> + Clock + Eprint + AllocGlobal + Clone + Drop,
    requires { length paths.now ≤ 64 }
    ensures { IfOk result (λ bay. length (⟦<FileBay<Heard<R>> as Bay>⟧.disks bay).sizes ≡ length paths.now) }
{
    let files = Heard(rt.clone()?);
    let (mut bay, wanted) = if command.traits().may_write {
        (FileBay::open(&files, rt.alloc(), paths)?, Use::Write)
    } else {
        (FileBay::open_to_read(&files, rt.alloc(), paths)?, Use::Read)
    };
    claim_all(rt, &mut bay, paths, wanted)?;
    name_unopened(rt, &bay, paths);
    Ok(bay)
}

/// Why the first disk that could not be opened couldn't, where there is one.
pub fn first_unopened<R: Files<File = File>>(bay: &FileBay<Heard<R>>) -> Option<io::Error> {
    for slot in 0..bay.slots() {
        if let Some(why) = bay.fault(slot) {
            return Some(why);
        }
    }
    None
}

/// Whether another program holds a lock on a disk.
pub fn any_locked<R: Files<File = File>>(bay: &FileBay<Heard<R>>) -> bool {
    (0..bay.slots()).any(|slot| match bay.fault(slot) {
        Some(why) => is_locked(&why),
        None => false,
    })
}

/// Names on standard error each disk of which a call failed, and what the system said of the last one.
pub fn name_failed<R: Files<File = File> + Eprint>(
    rt: &R,
    bay: &FileBay<Heard<R>>,
    paths: &[String],
) {
    for (slot, path) in paths.iter().enumerate() {
        if slot < bay.slots() {
            if let Some(file) = bay.file(slot) {
                tell_failed(rt, slot, path, file.why());
            }
        }
    }
}

fn tell_failed<R: Eprint>(rt: &R, slot: usize, path: &str, why: Option<io::Error>) {
    let Some(why) = why else {
        return;
    };
    let path = OneLine(path);
    let way = way_out_of(why.kind());
    let _ = eprintln!(rt; "ddf: slot {slot} ({path}): a call on it failed: {why}{way}");
}

/// What is to be done where a call failed for a cause that isn't the disk's.
fn way_out_of(kind: ErrorKind) -> &'static str {
    match kind {
        ErrorKind::StorageFull => {
            ": the disk is well, and the file system that its image is on is full; make room, and give the command again"
        }
        ErrorKind::QuotaExceeded | ErrorKind::FileTooLarge => {
            ": the disk is well, and its image may not take so much room; make room, and give the command again"
        }
        ErrorKind::UnexpectedEof => ": its image has become shorter since it was opened",
        _ => "",
    }
}

/// Names on standard error each path that could not be opened, and why.
fn name_unopened<R: Files<File = File> + Eprint>(rt: &R, bay: &FileBay<Heard<R>>, paths: &[String])
    requires { length paths.now ≡ length (⟦<FileBay<Heard<R>> as Bay>⟧.disks bay.now).sizes }
{
    for (slot, path) in paths.iter().enumerate() {
        if let Some(why) = bay.fault(slot) {
            tell_unopened(rt, slot, path, why);
        }
    }
}

/// Names a path that could not be opened. A word that begins as an option does, and is no file, is told as such.
fn tell_unopened<R: Eprint>(rt: &R, slot: usize, path: &str, why: io::Error) {
    let is_option = path.starts_with('-') && why.kind() == ErrorKind::NotFound;
    let path = OneLine(path);
    let _ = if is_option {
        eprintln!(rt; "ddf: slot {slot}: {path} is no option and no file\n{FIRST_LINE}")
    } else {
        eprintln!(rt; "ddf: slot {slot}: {path} can't be opened: {why}")
    };
}
