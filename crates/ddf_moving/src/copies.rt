//! The copy of a disk at other places, with the numbers of another one.
ghost use Rattle.std.specs.Prelude.{◌≡◌, ◌<◌, ◌≤◌, ◌^◌, IfOk};
ghost use Rattle.std.specs.Option.{ForSome};
ghost use Rattle.ddf_copy.specs.Written.{CanBeCopy};
ghost use Rattle.ddf_header.specs.Geometry.{IsSound};
ghost use Rattle.ddf_moving.specs.Copies.{copy_behind, moved_copy, relaid};
ghost use Rattle.ddf_moving.specs.Places.{moved_geometry, moved_header};

use crate::length::copy_length;
use crate::records::moved_slots;
use crate::tables::{blank_log, moved_arrays, moved_disks};
use ddf_bytes::{NoMemory, Seq};
use ddf_copy::DiskCopy;
use ddf_header::{
    ARRAYS, BAD_BLOCKS, CONTROLLER, DISK_DATA, DISKS, Geometry, Header, RECORDS, Section,
};
use ddf_import::{Moved, moved};
use std::alloc::Global;

/// A section that isn't there.
const ABSENT: Section = Section {
    offset: u32::MAX,
    length: 0,
};

fn moved_geometry(old: &Geometry, like: &Geometry, length: u32) -> Geometry
    ensures { result ≡ moved_geometry old.now like.now length }
{
    Geometry {
        workspace_lba: old.workspace_lba,
        workspace_length: length,
        sections: [
            like.section(CONTROLLER),
            like.section(DISKS),
            like.section(ARRAYS),
            like.section(RECORDS),
            like.section(DISK_DATA),
            like.section(BAD_BLOCKS),
            ABSENT,
            ABSENT,
        ],
        ..*like
    }
}

fn moved_header(old: &Header, like: &Geometry, places: &Moved) -> Header
    requires { places.now.length < 2 ^ 32 }
    ensures { result ≡ moved_header old.now like.now places.now }
{
    Header {
        primary_lba: places.primary,
        secondary_lba: places.secondary,
        geometry: moved_geometry(&old.geometry, like, places.length as u32),
        ..*old
    }
}

/// The copy of a disk behind a header of other places and numbers, with so many slots.
fn copy_behind(
    alloc: Global,
    old: &DiskCopy,
    header: Header,
    count: usize,
) -> Result<DiskCopy, NoMemory>
    requires old { CanBeCopy old.now }
    requires sound { IsSound header.geometry }
    ensures { IfOk result (λ copy. copy ≡ copy_behind old.now header count) }
{
    let own = &old.header.geometry;
    let geometry = &header.geometry;
    let disks = moved_disks(alloc, &old.disks, geometry)?;
    let arrays = moved_arrays(alloc, &old.arrays, geometry)?;
    let slots = moved_slots(alloc, own, geometry, count, old.slots.items())?;
    let bad = blank_log(alloc, geometry)?;
    Ok(DiskCopy {
        header,
        controller: old.controller,
        disks,
        arrays,
        slots: Seq::new(slots),
        disk_data: old.disk_data,
        bad,
    })
}

/// The copy of a disk at other places, with the numbers of another one.
fn relaid(
    alloc: Global,
    old: &DiskCopy,
    like: &DiskCopy,
    places: &Moved,
) -> Result<DiskCopy, NoMemory>
    requires old { CanBeCopy old.now }
    requires like { CanBeCopy like.now }
    requires small { places.now.length < 2 ^ 32 }
    ensures { IfOk result (λ copy. copy ≡ relaid old.now like.now places.now) }
{
    let header = moved_header(&old.header, &like.header.geometry, places);
    copy_behind(alloc, old, header, like.slots.items().len())
}

/// The copy of a disk at the end of its workspace, with the numbers and the sections of another disk, and still of its own group. None where
/// the workspace has no room for both copies and for the sectors that stay at its front.
///
/// # Errors
/// Memory ran out.
#[tactic(auto, unfolding(crate::specs::Copies::moved_copy))]
pub fn moved_copy(
    alloc: Global,
    old: &DiskCopy,
    like: &DiskCopy,
) -> Result<Option<DiskCopy>, NoMemory>
    requires old { CanBeCopy old.now }
    requires like { CanBeCopy like.now }
    requires place { old.now.header.geometry.workspace_lba ≤ 2 ^ 55 }
    ensures exact { IfOk result (λ made. made ≡ moved_copy old.now like.now) }

    // It can be written.
    ensures writable { IfOk result (λ made. ForSome made CanBeCopy) }
{
    let workspace = &old.header.geometry;
    let copy = copy_length(&like.header.geometry);
    let length = u64::from(workspace.workspace_length);
    match moved(workspace.workspace_lba, length, copy) {
        Some(places) => Ok(Some(relaid(alloc, old, like, &places)?)),
        None => Ok(None),
    }
}
