//! The sectors of a copy that are read.
ghost use Rattle.std.specs.Prelude.{◌≡◌, ◌+◌, ◌-◌, ◌<◌, ◌≤◌, IfErr, IfOk, length, slice_index};
ghost use Rattle.ddf_bay.specs.ReadsOnly.{ReadsOnly, LooksAt};
ghost use Rattle.ddf_header.specs.Geometry.{IsSound};
ghost use Rattle.ddf_copy.specs.Faults.{IsLookFaultOf, copy_failed};
ghost use Rattle.ddf_copy.specs.Room.{DoFit};
ghost use Rattle.ddf_copy.specs.Sections.{HasSizes, raw_at, sectors_at, whole_slots};

use crate::fault::CopyFault;
use ddf_bay::Bay;
use ddf_bytes::{Sector, Seq};
use ddf_header::{ARRAYS, BAD_BLOCKS, CONTROLLER, DISK_DATA, DISKS, Geometry, RECORDS, Section};
use std::alloc::Global;

/// The sectors of a copy's sections, as they are read and written.
#[derive(Drop)]
pub struct Raw {
    /// The first sector of the controller data.
    pub controller: Sector,
    /// The physical disk records.
    pub disks: Seq<Sector>,
    /// The virtual disk records.
    pub arrays: Seq<Sector>,
    /// The configuration records, as far as there are whole slots.
    pub records: Seq<Sector>,
    /// The first sector of the physical disk data.
    pub disk_data: Sector,
    /// The bad block log, none where the section is absent.
    pub bad_blocks: Seq<Sector>,
}

/// Reads the sections of the copy at an LBA, one call for each that is there.
pub(crate) fn read_raw<B: Bay>(
    alloc: Global,
    bay: &mut B,
    slot: usize,
    lba: u64,
    geometry: &Geometry,
) -> Result<Raw, CopyFault>
    requires slot { slot < length (B.disks bay.old).sizes }
    requires sound { IsSound geometry.now }
    requires some { 0 < slice_index (B.disks bay.old).sizes slot }
    requires fit { DoFit (slice_index (B.disks bay.old).sizes slot - 1) lba geometry.now.sections }
    ensures raw { B.tells → IfOk result (λ raw. raw ≡ raw_at ((B.disks bay.old).held slot) lba geometry.now) }
    ensures sizes { IfOk result (HasSizes geometry.now) }
    ensures reads { ReadsOnly (B.disks bay.old) (B.disks bay.new) }
    ensures look { LooksAt (B.disks bay.old) (B.disks bay.new) slot (copy_failed result) }
    ensures named { IfErr result (IsLookFaultOf slot) }
    ensures calls { (B.disks bay.new).calls ≤ (B.disks bay.old).calls + 6 }
{
    let controller = read_first(bay, slot, lba, geometry.section(CONTROLLER))?;
    let disks = read_section(alloc, bay, slot, lba, geometry.section(DISKS))?;
    let arrays = read_section(alloc, bay, slot, lba, geometry.section(ARRAYS))?;
    let records = read_section(alloc, bay, slot, lba, whole_slots(geometry))?;
    let disk_data = read_first(bay, slot, lba, geometry.section(DISK_DATA))?;
    let bad_blocks = read_section(alloc, bay, slot, lba, geometry.section(BAD_BLOCKS))?;
    Ok(Raw {
        controller,
        disks,
        arrays,
        records,
        disk_data,
        bad_blocks,
    })
}

/// The part of the configuration records that holds whole slots.
pub(crate) fn whole_slots(geometry: &Geometry) -> Section
    requires { IsSound geometry.now }
    ensures value { result ≡ whole_slots geometry.now }
{
    let records = geometry.section(RECORDS);
    let slot = u32::from(geometry.record_length);
    Section {
        offset: records.offset,
        length: records.length / slot * slot,
    }
}

/// Reads the first sector of a section.
fn read_first<B: Bay>(
    bay: &mut B,
    slot: usize,
    lba: u64,
    section: Section,
) -> Result<Sector, CopyFault>
    requires slot { slot < length (B.disks bay.old).sizes }
    requires some { 0 < section.length }
    requires fits { lba + section.offset + section.length < slice_index (B.disks bay.old).sizes slot }
    ensures sector { B.tells → IfOk result (λ sector. sector ≡ (B.disks bay.old).held slot (lba + section.offset)) }
    ensures reads { ReadsOnly (B.disks bay.old) (B.disks bay.new) }
    ensures look { LooksAt (B.disks bay.old) (B.disks bay.new) slot (copy_failed result) }
    ensures named { IfErr result (IsLookFaultOf slot) }
    ensures calls { (B.disks bay.new).calls ≤ (B.disks bay.old).calls + 1 }
{
    let mut sector = [0; 512];
    match bay.read(slot, lba + u64::from(section.offset), &mut sector) {
        Ok(()) => Ok(sector),
        Err(_) => Err(CopyFault::Disk(slot)),
    }
}

/// Reads the sectors of a section. None are read of one that is absent.
fn read_section<B: Bay>(
    alloc: Global,
    bay: &mut B,
    slot: usize,
    lba: u64,
    section: Section,
) -> Result<Seq<Sector>, CopyFault>
    requires slot { slot < length (B.disks bay.old).sizes }
    requires fits { 0 < section.length → lba + section.offset + section.length < slice_index (B.disks bay.old).sizes slot }
    ensures sectors { B.tells → IfOk result (λ sectors. sectors ≡ sectors_at ((B.disks bay.old).held slot) lba section) }
    ensures length { IfOk result (λ sectors. length sectors ≡ section.length) }
    ensures reads { ReadsOnly (B.disks bay.old) (B.disks bay.new) }
    ensures look { LooksAt (B.disks bay.old) (B.disks bay.new) slot (copy_failed result) }
    ensures named { IfErr result (IsLookFaultOf slot) }
    ensures calls { (B.disks bay.new).calls ≤ (B.disks bay.old).calls + 1 }
{
    if section.length == 0 {
        return Ok(Seq::new(Vec::new(alloc)));
    }
    let Ok(mut sectors) = vec![in alloc; [0; 512]; section.length as usize] else {
        return Err(CopyFault::Memory);
    };
    let start = lba + u64::from(section.offset);
    match bay.read_run(slot, start, sectors.as_mut_slice()) {
        Ok(()) => Ok(Seq::new(sectors)),
        Err(_) => Err(CopyFault::Disk(slot)),
    }
}
