//! What the system tells of the use of a block device: whether it is protected, mounted, swapped to, or part of another device. Linux would write
//! behind the program's back. docs/COMMANDS.md#disks-and-the-system
use crate::device::{device_of, if_told, is_held, is_protected, overlap};
use std::fs::Metadata;
use std::os::unix::fs::FileTypeExt;
use std::rt::Files;
use std::{fs, io};

/// The mounted file systems: in each line the third word is the number of a device, and the third from a dash on its path.
const MOUNTS: &str = "/proc/self/mountinfo";

/// The files and devices that memory is swapped to: the first word of each line, below a head, is a path.
const SWAPS: &str = "/proc/swaps";

/// Why a block device isn't written to. Nothing where the system doesn't tell.
pub fn use_of<R>(rt: &R, metadata: &Metadata) -> io::Result<Option<&'static str>>
where
    R: Files + AllocGlobal + Clone + Drop,
{
    if !metadata.file_type().is_block_device() {
        return Ok(None);
    }
    let device = device_of(rt.alloc(), metadata)?;
    if is_protected(rt, &device)? {
        return Ok(Some("it is protected from writes"));
    }
    if is_mounted(rt, &device)? {
        return Ok(Some("it is mounted"));
    }
    if is_swapped_to(rt, &device)? {
        return Ok(Some("memory is swapped to it"));
    }
    if is_held(rt, &device)? {
        return Ok(Some("another device is made of it"));
    }
    Ok(None)
}

/// The text of a file of the system, empty where it can't be read.
fn text_of<R: Files + AllocGlobal>(rt: &R, path: &str) -> io::Result<String> {
    match if_told(fs::read(rt, path))? {
        Some(bytes) => Ok(String::from_utf8_lossy(rt.alloc(), &bytes)?),
        None => Ok(String::new(rt.alloc())),
    }
}

fn is_mounted<R: Files + AllocGlobal>(rt: &R, device: &str) -> io::Result<bool> {
    let mounts = text_of(rt, MOUNTS)?;
    for line in mounts.as_str().lines() {
        if is_mount_of(rt, device, line)? {
            return Ok(true);
        }
    }
    Ok(false)
}

/// Whether a line tells that the device is mounted: by its number, or by its path where the file system has a number of its own.
fn is_mount_of<R: Files + AllocGlobal>(rt: &R, device: &str, line: &str) -> io::Result<bool> {
    let mut words = line.split(' ');
    if let Some(number) = words.nth(2) {
        if overlap(rt, device, number)? {
            return Ok(true);
        }
    }
    match words.skip_while(|word| *word != "-").nth(2) {
        Some(path) => is_at(rt, device, path),
        None => Ok(false),
    }
}

fn is_swapped_to<R: Files + AllocGlobal>(rt: &R, device: &str) -> io::Result<bool> {
    let swaps = text_of(rt, SWAPS)?;
    for line in swaps.as_str().lines().skip(1) {
        if let Some(path) = line.split(' ').next() {
            if is_at(rt, device, path)? {
                return Ok(true);
            }
        }
    }
    Ok(false)
}

/// Whether a path leads to the device, to a part of it or to the whole of it.
fn is_at<R: Files + AllocGlobal>(rt: &R, device: &str, path: &str) -> io::Result<bool> {
    let Ok(metadata) = fs::metadata(rt, path) else {
        return Ok(false);
    };
    if !metadata.file_type().is_block_device() {
        return Ok(false);
    }
    let other = device_of(rt.alloc(), &metadata)?;
    overlap(rt, device, &other)
}
