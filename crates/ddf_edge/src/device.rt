//! Block devices as the system names them: `MAJOR:MINOR`.
use std::alloc::{AllocError, Global};
use std::fs::Metadata;
use std::io::ErrorKind;
use std::os::unix::fs::MetadataExt;
use std::rt::Files;
use std::{fs, io};

/// The number of a block device, as the system's files write it.
pub fn device_of(alloc: Global, metadata: &Metadata) -> Result<String, AllocError> {
    let number = metadata.rdev();
    let major = (number >> 8) & 0xFFF | (number >> 32) & 0xFFFF_F000;
    let minor = number & 0xFF | (number >> 12) & 0xFFFF_FF00;
    format!(in alloc; "{major}:{minor}")
}

/// What the system tells, or nothing where it doesn't. Want of memory alone is a failure.
pub fn if_told<T>(outcome: io::Result<T>) -> io::Result<Option<T>> {
    match outcome {
        Ok(value) => Ok(Some(value)),
        Err(why) if why.kind() == ErrorKind::OutOfMemory => Err(why),
        Err(_) => Ok(None),
    }
}

/// Whether two devices have sectors in common: they are one, or one is a partition of the other.
pub fn overlap<R: Files + AllocGlobal>(rt: &R, one: &str, other: &str) -> io::Result<bool> {
    Ok(one == other || is_partition(rt, one, other)? || is_partition(rt, other, one)?)
}

/// Whether a device is a partition of a disk.
fn is_partition<R: Files + AllocGlobal>(rt: &R, device: &str, disk: &str) -> io::Result<bool> {
    let path = format!(in rt.alloc(); "/sys/dev/block/{device}/../dev")?;
    tells(rt, &path, disk)
}

/// Whether a device is protected from writes.
pub fn is_protected<R: Files + AllocGlobal>(rt: &R, device: &str) -> io::Result<bool> {
    let path = format!(in rt.alloc(); "/sys/dev/block/{device}/ro")?;
    tells(rt, &path, "1")
}

/// Whether a file of the system has this text as its line.
fn tells<R: Files + AllocGlobal>(rt: &R, path: &str, wanted: &str) -> io::Result<bool> {
    match if_told(fs::read_to_string(rt, path))? {
        Some(text) => Ok(text.as_str().trim_end() == wanted),
        None => Ok(false),
    }
}

/// Whether other devices are made of this one, of a part of it, or of the whole that it is part of.
pub fn is_held<R>(rt: &R, device: &str) -> io::Result<bool>
where
    R: Files + AllocGlobal + Clone + Drop,
{
    let here = format!(in rt.alloc(); "/sys/dev/block/{device}")?;
    let whole = format!(in rt.alloc(); "{here}/..")?;
    Ok(has_holders(rt, &here)? || has_holders(rt, &whole)? || has_held_part(rt, &here)?)
}

/// Whether a part of a device is held. Each part has a folder in the device's.
fn has_held_part<R>(rt: &R, here: &str) -> io::Result<bool>
where
    R: Files + AllocGlobal + Clone + Drop,
{
    let Some(parts) = if_told(fs::read_dir(rt, here))? else {
        return Ok(false);
    };
    for part in parts {
        if let Some(part) = if_told(part)? {
            if has_holders(rt, part.path().as_str())? {
                return Ok(true);
            }
        }
    }
    Ok(false)
}

/// Whether a device's folder lists holders.
fn has_holders<R>(rt: &R, folder: &str) -> io::Result<bool>
where
    R: Files + AllocGlobal + Clone + Drop,
{
    let path = format!(in rt.alloc(); "{folder}/holders")?;
    match if_told(fs::read_dir(rt, &path))? {
        Some(mut holders) => Ok(holders.next().is_some()),
        None => Ok(false),
    }
}
