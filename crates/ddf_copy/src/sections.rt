//! What the sections of a copy hold.
ghost use Rattle.std.specs.Prelude.{◌≡◌, ◌+◌, ◌*◌, ◌/◌, ◌<◌, ◌≤◌, IfOk, Some, length, false};
ghost use Rattle.ddf_header.specs.Geometry.{IsSound, section_of};
ghost use Rattle.ddf_header.specs.declared.geometry.Section.{Section};
ghost use Rattle.ddf_header.specs.Header.{IsWritable};
ghost use Rattle.ddf_tables.specs.Arrays.{IsArrayTable, decoded_arrays};
ghost use Rattle.ddf_tables.specs.BadBlocks.{IsLog, decoded_log};
ghost use Rattle.ddf_tables.specs.Disks.{IsDiskTable, decoded_disks};
ghost use Rattle.ddf_tables.specs.Sectors.{IsController, IsDiskData, decoded_controller, decoded_disk_data};
ghost use Rattle.ddf_config_records.specs.Slots.{CanBeSlots, DoFit, decoded_slots};
ghost use Rattle.ddf_copy.specs.declared.fault.SectionName.{SectionName};
ghost use Rattle.ddf_copy.specs.Faults.{UpToMemory, copy_failed};
ghost use Rattle.ddf_copy.specs.Sections.{HasSizes, bytes_in, copy_in, in_section, in_sector, in_slots, log_in, raw_bytes, whole_slots};
ghost use Rattle.ddf_copy.specs.Written.{HasLog, CanBeCopy, arrays_written, controller_written, disk_data_written, disks_written, log_written, records_written, sections_written};

use crate::copy::DiskCopy;
use crate::fault::{CopyFault, SectionName};
use crate::raw::Raw;
use ddf_bytes::{Sector, Seq};
use ddf_config_records::{RecordSlot, SlotFault, decode_slots};
use ddf_header::Header;
use ddf_tables::{
    ArrayTable, BadBlockLog, Controller, DiskData, DiskTable, TableFault, decode_arrays,
    decode_bad_blocks, decode_controller, decode_disk_data, decode_disks,
};
use std::alloc::Global;

/// The copy that stands in its header and sections, or the fault of the first section that has one.
#[tactic(auto, unfolding(crate::specs::Sections::copy_in))]
pub(crate) fn copy_in(alloc: Global, header: &Header, raw: &Raw) -> Result<DiskCopy, CopyFault>
    requires sound { IsSound header.now.geometry }
    requires writable { IsWritable header.now.kind header.now }
    requires closed { header.now.openness ≡ 0 }
    requires sizes { HasSizes header.now.geometry raw.now }
    ensures copy { UpToMemory result (copy_in header.now raw.now) }
    ensures written { IfOk result (λ copy. sections_written copy ≡ raw_bytes raw.now) }
    ensures writable { IfOk result CanBeCopy }
    ensures header { IfOk result (λ copy. copy.header ≡ header.now) }
    ensures no_look { copy_failed result ≡ false }
{
    let controller = controller_in(&raw.controller)?;
    let disks = disks_in(alloc, header, raw.disks.items())?;
    let arrays = arrays_in(alloc, header, raw.arrays.items())?;
    let slots = slots_in(alloc, header, raw.records.items())?;
    let disk_data = disk_data_in(&raw.disk_data)?;
    let bad = log_in(alloc, raw.bad_blocks.items())?;
    Ok(DiskCopy {
        header: *header,
        controller,
        disks,
        arrays,
        slots,
        disk_data,
        bad,
    })
}

fn controller_in(sector: &Sector) -> Result<Controller, CopyFault>
    ensures value { result ≡ in_sector SectionName.Controller (decoded_controller sector.now) }
    ensures written { IfOk result (λ controller. controller_written controller ≡ sector.now) }
    ensures writable { IfOk result IsController }
    ensures no_look { copy_failed result ≡ false }
{
    match decode_controller(sector) {
        Ok(controller) => Ok(controller),
        Err(fault) => Err(CopyFault::Section(SectionName::Controller, TableFault::Seal(fault))),
    }
}

fn disks_in(alloc: Global, header: &Header, sectors: &[Sector]) -> Result<DiskTable, CopyFault>
    requires { 64 + 64 * header.now.geometry.max_disks ≤ 512 * length sectors.now }
    ensures value { UpToMemory result (in_section SectionName.Disks (decoded_disks header.now.geometry.max_disks (bytes_in sectors.now))) }
    ensures written { IfOk result (λ table. disks_written table ≡ bytes_in sectors.now) }
    ensures writable { IfOk result (IsDiskTable header.now.geometry.max_disks) }
    ensures size { IfOk result (λ table. length table.rest ≡ 512 * length sectors.now) }
    ensures no_look { copy_failed result ≡ false }
{
    match decode_disks(alloc, sectors.as_flattened(), header.geometry.max_disks) {
        Ok(disks) => Ok(disks),
        Err(TableFault::Memory) => Err(CopyFault::Memory),
        Err(fault) => Err(CopyFault::Section(SectionName::Disks, fault)),
    }
}

fn arrays_in(alloc: Global, header: &Header, sectors: &[Sector]) -> Result<ArrayTable, CopyFault>
    requires { 64 + 64 * header.now.geometry.max_arrays ≤ 512 * length sectors.now }
    ensures value { UpToMemory result (in_section SectionName.Arrays (decoded_arrays header.now.geometry.max_arrays (bytes_in sectors.now))) }
    ensures written { IfOk result (λ table. arrays_written table ≡ bytes_in sectors.now) }
    ensures writable { IfOk result (IsArrayTable header.now.geometry.max_arrays) }
    ensures size { IfOk result (λ table. length table.rest ≡ 512 * length sectors.now) }
    ensures no_look { copy_failed result ≡ false }
{
    match decode_arrays(alloc, sectors.as_flattened(), header.geometry.max_arrays) {
        Ok(arrays) => Ok(arrays),
        Err(TableFault::Memory) => Err(CopyFault::Memory),
        Err(fault) => Err(CopyFault::Section(SectionName::Arrays, fault)),
    }
}

fn slots_in(
    alloc: Global,
    header: &Header,
    sectors: &[Sector],
) -> Result<Seq<RecordSlot>, CopyFault>
    requires sound { IsSound header.now.geometry }
    requires whole { length sectors.now ≡ (whole_slots header.now.geometry).length }
    ensures value { UpToMemory result (in_slots (decoded_slots header.now.geometry header.now.guid header.now.sequence (bytes_in sectors.now))) }
    ensures written { IfOk result (λ slots. records_written header.now.geometry slots ≡ bytes_in sectors.now) }
    ensures writable { IfOk result (CanBeSlots header.now.geometry header.now.guid header.now.sequence) }
    ensures fits { IfOk result (DoFit header.now.geometry) }
    ensures count { IfOk result (λ slots. length slots ≡ (section_of header.now.geometry 3).length / header.now.geometry.record_length) }
    ensures no_look { copy_failed result ≡ false }
{
    let section = sectors.as_flattened();
    match decode_slots(
        alloc,
        section,
        &header.geometry,
        &header.guid,
        header.sequence,
    ) {
        Ok(slots) => Ok(Seq::new(slots)),
        Err(SlotFault::Memory) => Err(CopyFault::Memory),
        Err(SlotFault::Seal { slot, fault }) => Err(CopyFault::Slot(slot, fault)),
    }
}

fn disk_data_in(sector: &Sector) -> Result<DiskData, CopyFault>
    ensures value { result ≡ in_sector SectionName.DiskData (decoded_disk_data sector.now) }
    ensures written { IfOk result (λ disk. disk_data_written disk ≡ sector.now) }
    ensures writable { IfOk result IsDiskData }
    ensures no_look { copy_failed result ≡ false }
{
    match decode_disk_data(sector) {
        Ok(disk) => Ok(disk),
        Err(fault) => Err(CopyFault::Section(SectionName::DiskData, TableFault::Seal(fault))),
    }
}

/// The bad block log, where there is one.
fn log_in(alloc: Global, sectors: &[Sector]) -> Result<Option<BadBlockLog>, CopyFault>
    ensures value { UpToMemory result (log_in sectors.now) }
    ensures written { IfOk result (λ log. log_written log ≡ bytes_in sectors.now) }
    ensures writable { (section : Section) → length sectors.now ≡ section.length → IfOk result (HasLog section) }
    ensures no_look { copy_failed result ≡ false }
{
    if sectors.is_empty() {
        return Ok(None);
    }
    let log = present_log_in(alloc, sectors)?;
    Ok(Some(log))
}

fn present_log_in(alloc: Global, sectors: &[Sector]) -> Result<BadBlockLog, CopyFault>
    requires { 0 < length sectors.now }
    ensures value { UpToMemory result (in_section SectionName.BadBlocks (decoded_log (bytes_in sectors.now))) }
    ensures written { IfOk result (λ log. log_written (Some log) ≡ bytes_in sectors.now) }
    ensures writable { IfOk result IsLog }
    ensures size { IfOk result (λ log. length log.rest ≡ 512 * length sectors.now) }
    ensures no_look { copy_failed result ≡ false }
{
    match decode_bad_blocks(alloc, sectors.as_flattened()) {
        Ok(log) => Ok(log),
        Err(TableFault::Memory) => Err(CopyFault::Memory),
        Err(fault) => Err(CopyFault::Section(SectionName::BadBlocks, fault)),
    }
}
