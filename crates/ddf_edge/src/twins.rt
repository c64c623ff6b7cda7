//! One disk under two names: it would count as two members. docs/DECISIONS-COMMANDS.md#the-program-and-the-system
use crate::one_line::OneLine;
use ddf_bytes::NoMemory;
use std::fs;
use std::fs::Metadata;
use std::os::unix::fs::{FileTypeExt, MetadataExt};
use std::rt::Files;

/// What the system tells a disk by, whatever its names are.
#[derive(Clone, Copy, PartialEq, Eq)]
enum Identity {
    /// A block device, by its number.
    Device(u64),
    /// A file, by the device that it is on and its number there.
    File(u64, u64),
}

/// The place of the first path that names the same disk as one before it. Standard error names both.
pub fn same_disk<R>(rt: &R, paths: &[String]) -> Result<Option<usize>, NoMemory>
where
    R: Files + Eprint + AllocGlobal,
{
    let mut known = Vec::with_capacity(rt.alloc(), paths.len())?;
    for (place, path) in paths.iter().enumerate() {
        let identity = identity_of(rt, path);
        if let Some(twin) = twin_of(&known, identity) {
            let path = OneLine(path);
            let _ = eprintln!(rt; "ddf: slot {place}: {path} is the same disk as slot {twin}");
            return Ok(Some(place));
        }
        known.push(identity)?;
    }
    Ok(None)
}

/// The first slot with this identity, if it has one.
fn twin_of(known: &[Option<Identity>], identity: Option<Identity>) -> Option<usize> {
    let identity = identity?;
    known.iter().position(|other| *other == Some(identity))
}

/// What a path leads to, where the system tells.
fn identity_of<R: Files>(rt: &R, path: &str) -> Option<Identity> {
    match fs::metadata(rt, path) {
        Ok(metadata) => identity_in(&metadata),
        Err(_) => None,
    }
}

/// A system that tells no numbers gives 0 for each.
fn identity_in(metadata: &Metadata) -> Option<Identity> {
    if metadata.file_type().is_block_device() {
        return Some(Identity::Device(metadata.rdev()));
    }
    if metadata.ino() == 0 {
        return None;
    }
    Some(Identity::File(metadata.dev(), metadata.ino()))
}
