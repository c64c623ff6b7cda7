//! The sectors that the sections of a copy are written as.
ghost use Rattle.std.specs.Prelude.{◌≡◌, ◌*◌, ◌/◌, ◌+◌, ◌≤◌, ℕ, List, IfOk, Ok, Some, [], ◌∷◌, length};
ghost use Rattle.ddf_seal.specs.Unread.{AreBytes};
ghost use Rattle.ddf_header.specs.Geometry.{IsSound, section_of};
ghost use Rattle.ddf_tables.specs.Disks.{IsDiskTable, IsDiskTableOf, decoded_disks, disk_table_bytes};
ghost use Rattle.ddf_tables.specs.Arrays.{IsArrayTable, IsArrayTableOf, array_table_bytes, decoded_arrays};
ghost use Rattle.ddf_tables.specs.BadBlocks.{IsLog, IsLogOf, decoded_log, log_bytes};
ghost use Rattle.ddf_tables.specs.Sectors.{IsController, IsDiskData, decoded_controller, decoded_disk_data};
ghost use Rattle.ddf_config_records.specs.Slots.{AreSlotsOf, CanBeSlots, DoFit, decoded_slots, slot_count};
ghost use Rattle.ddf_header.specs.declared.geometry.Section.{Section};
ghost use Rattle.ddf_copy.specs.Runs.{IsReadAs};
ghost use Rattle.ddf_copy.specs.Sections.{HasSizes, bytes_in, log_in, raw_bytes, whole_slots};
ghost use Rattle.ddf_copy.specs.Written.{HasLog, CanBeCopy, arrays_written, controller_written, disk_data_written, disks_written, log_written, records_written, sections_written};

use crate::copy::DiskCopy;
use crate::raw::{Raw, whole_slots};
use ddf_bytes::{NoMemory, Sector, Seq};
use ddf_config_records::{RecordSlot, encode_slots};
use ddf_header::{ARRAYS, BAD_BLOCKS, DISKS, Geometry, Section};
use ddf_tables::{
    ArrayTable, BadBlockLog, DiskTable, encode_arrays, encode_bad_blocks, encode_controller,
    encode_disk_data, encode_disks,
};
use std::alloc::Global;

/// The sectors of each section of a copy.
pub(crate) fn raw_of(alloc: Global, copy: &DiskCopy) -> Result<Raw, NoMemory>
    requires { CanBeCopy copy.now }
    ensures read { IfOk result (IsReadAs copy.now) }
    ensures sizes { IfOk result (HasSizes copy.now.header.geometry) }
    ensures written { IfOk result (λ raw. raw_bytes raw ≡ sections_written copy.now) }
{
    let disks = disks_of(alloc, copy)?;
    let arrays = arrays_of(alloc, copy)?;
    let records = records_of(alloc, copy)?;
    let bad_blocks = log_of(alloc, copy.header.geometry.section(BAD_BLOCKS), &copy.bad)?;
    Ok(Raw {
        controller: encode_controller(&copy.controller),
        disks,
        arrays,
        records,
        disk_data: encode_disk_data(&copy.disk_data),
        bad_blocks,
    })
}

/// The bytes of so many sectors, all zeros.
fn zeros(alloc: Global, sectors: u32) -> Result<Vec<u8>, NoMemory>
    ensures { IfOk result (λ bytes. length bytes.items ≡ 512 * sectors) }
{
    let bytes = vec![in alloc; 0; 512 * sectors as usize]?;
    Ok(bytes)
}

/// The sectors of which these are the bytes.
fn sectors_in(alloc: Global, bytes: &[u8]) -> Result<Seq<Sector>, NoMemory>
    requires { 512 * (length bytes.now / 512) ≡ length bytes.now }
    ensures bytes { IfOk result (λ sectors. bytes_in sectors ≡ bytes.now) }
    ensures count { IfOk result (λ sectors. length sectors ≡ length bytes.now / 512) }
{
    let (sectors, _) = bytes.as_chunks::<512>();
    let sectors = Vec::from_slice(alloc, sectors)?;
    Ok(Seq::new(sectors))
}

fn disks_of(alloc: Global, copy: &DiskCopy) -> Result<Seq<Sector>, NoMemory>
    requires { CanBeCopy copy.now }
    ensures written { IfOk result (λ sectors. bytes_in sectors ≡ disks_written copy.now.disks) }
    ensures read { IfOk result (λ sectors. decoded_disks copy.now.header.geometry.max_disks (bytes_in sectors) ≡ Ok copy.now.disks) }
    ensures size { IfOk result (λ sectors. length sectors ≡ (section_of copy.now.header.geometry 1).length) }
{
    let mut bytes = zeros(alloc, copy.header.geometry.section(DISKS).length)?;
    put_disks(&copy.disks, &mut bytes);
    let sectors = sectors_in(alloc, bytes.as_slice())?;
    Ok(sectors)
}

fn arrays_of(alloc: Global, copy: &DiskCopy) -> Result<Seq<Sector>, NoMemory>
    requires { CanBeCopy copy.now }
    ensures written { IfOk result (λ sectors. bytes_in sectors ≡ arrays_written copy.now.arrays) }
    ensures read { IfOk result (λ sectors. decoded_arrays copy.now.header.geometry.max_arrays (bytes_in sectors) ≡ Ok copy.now.arrays) }
    ensures size { IfOk result (λ sectors. length sectors ≡ (section_of copy.now.header.geometry 2).length) }
{
    let mut bytes = zeros(alloc, copy.header.geometry.section(ARRAYS).length)?;
    put_arrays(&copy.arrays, &mut bytes);
    let sectors = sectors_in(alloc, bytes.as_slice())?;
    Ok(sectors)
}

/// The whole slots.
fn records_of(alloc: Global, copy: &DiskCopy) -> Result<Seq<Sector>, NoMemory>
    requires { CanBeCopy copy.now }
    ensures written { IfOk result (λ sectors. bytes_in sectors ≡ records_written copy.now.header.geometry copy.now.slots) }
    ensures read { IfOk result (λ sectors. decoded_slots copy.now.header.geometry copy.now.header.guid copy.now.header.sequence (bytes_in sectors) ≡ Ok copy.now.slots) }
    ensures size { IfOk result (λ sectors. length sectors ≡ (whole_slots copy.now.header.geometry).length) }
{
    let geometry = &copy.header.geometry;
    let mut bytes = zeros(alloc, whole_slots(geometry).length)?;
    put_slots(copy.slots.items(), geometry, &mut bytes);
    let sectors = sectors_in(alloc, bytes.as_slice())?;
    Ok(sectors)
}

/// No sectors where there is no log.
fn log_of(
    alloc: Global,
    section: Section,
    log: &Option<BadBlockLog>,
) -> Result<Seq<Sector>, NoMemory>
    requires { HasLog section log.now }
    ensures written { IfOk result (λ sectors. bytes_in sectors ≡ log_written log.now) }
    ensures read { IfOk result (λ sectors. log_in sectors ≡ Ok log.now) }
    ensures size { IfOk result (λ sectors. length sectors ≡ section.length) }
{
    match log {
        Some(log) => present_log_of(alloc, section, log),
        None => Ok(Seq::new(Vec::new(alloc))),
    }
}

fn present_log_of(
    alloc: Global,
    section: Section,
    log: &BadBlockLog,
) -> Result<Seq<Sector>, NoMemory>
    requires { HasLog section (Some log.now) }
    ensures written { IfOk result (λ sectors. bytes_in sectors ≡ log_written (Some log.now)) }
    ensures read { IfOk result (λ sectors. log_in sectors ≡ Ok (Some log.now)) }
    ensures size { IfOk result (λ sectors. length sectors ≡ section.length) }
{
    let mut bytes = zeros(alloc, section.length)?;
    put_log(log, &mut bytes);
    let sectors = sectors_in(alloc, bytes.as_slice())?;
    Ok(sectors)
}

fn put_disks(table: &DiskTable, bytes: &mut Vec<u8>)
    requires { length bytes.old.items ≡ length table.now.rest }
    ensures exact { bytes.new.items ≡ disk_table_bytes table.now }
    ensures made { (max : ℕ) → IsDiskTable max table.now → IsDiskTableOf max table.now bytes.new.items }
    ensures size { length bytes.new.items ≡ length bytes.old.items }
{
    encode_disks(table, bytes.as_mut_slice());
}

fn put_arrays(table: &ArrayTable, bytes: &mut Vec<u8>)
    requires { length bytes.old.items ≡ length table.now.rest }
    ensures exact { bytes.new.items ≡ array_table_bytes table.now }
    ensures made { (max : ℕ) → IsArrayTable max table.now → IsArrayTableOf max table.now bytes.new.items }
    ensures size { length bytes.new.items ≡ length bytes.old.items }
{
    encode_arrays(table, bytes.as_mut_slice());
}

fn put_slots(slots: &[RecordSlot], geometry: &Geometry, bytes: &mut Vec<u8>)
    requires sound { IsSound geometry.now }
    requires counted { length slots.now ≡ slot_count geometry.now bytes.old.items }
    requires fits { DoFit geometry.now slots.now }
    ensures made { (group : List ℕ) (sequence : ℕ) → CanBeSlots geometry.now group sequence slots.now
        → AreSlotsOf geometry.now group sequence slots.now bytes.new.items }
    ensures bytes { AreBytes bytes.new.items }
    ensures size { length bytes.new.items ≡ length bytes.old.items }
{
    encode_slots(slots, geometry, bytes.as_mut_slice());
}

fn put_log(log: &BadBlockLog, bytes: &mut Vec<u8>)
    requires { length bytes.old.items ≡ length log.now.rest }
    ensures exact { bytes.new.items ≡ log_bytes log.now }
    ensures made { IsLog log.now → IsLogOf log.now bytes.new.items }
    ensures size { length bytes.new.items ≡ length bytes.old.items }
{
    encode_bad_blocks(log, bytes.as_mut_slice());
}
