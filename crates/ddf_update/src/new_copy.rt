//! The copies of a new group's disks.
ghost use Rattle.std.specs.Prelude.{◌≡◌, ◌<◌, ◌≤◌, ◌*◌, ℕ, length, slice_index, IfOk, IsTrue};
ghost use Rattle.std.specs.List.{list_all};
ghost use Rattle.ddf_seal.specs.Unread.{cleared, is_within, places};
ghost use Rattle.ddf_header.specs.declared.reading.Header.{Header};
ghost use Rattle.ddf_header.specs.Header.{unread};
ghost use Rattle.ddf_tables.specs.declared.disks.DiskEntry.{DiskEntry};
ghost use Rattle.ddf_tables.specs.Disks.{IsDiskTable, disk_fields};
ghost use Rattle.ddf_tables.specs.Arrays.{IsArrayTable};
ghost use Rattle.ddf_tables.specs.BadBlocks.{IsLog};
ghost use Rattle.ddf_copy.specs.Headers.{IsUnder, anchor_header};
ghost use Rattle.ddf_update.specs.NewLayouts.{least_sectors, rows_of, table_sectors_of};
ghost use Rattle.ddf_update.specs.NewCopies.{
  block_size_of,
  disk_guid,
  entries_from,
  new_arrays,
  new_controller,
  new_copy,
  new_disk_data,
  new_disks,
  new_entry,
  new_entry_bytes,
  new_geometry,
  new_header,
  new_header_bytes,
  new_log,
  new_notes,
  new_rows,
  new_sector_bytes,
  new_slots,
  no_note,
  reference_at,
  section_at,
  unused_slot,
};

use crate::new_layout::{NewLayout, WORKSPACE};
use ddf_bytes::{Guid, GuidKind, NoMemory, Sector, Seq, Stamp, new_guid, put16};
use ddf_config_records::{Notes, RecordSlot, SlotNote};
use ddf_copy::DiskCopy;
use ddf_header::layout::{
    GROUPING_AT, KIND_AT, MAX_MEMBERS_AT, PRIMARY_LBA_AT, SECTIONS_AT, WORKSPACE_LENGTH_AT,
};
use ddf_header::{Geometry, Header, HeaderKind, Revision, Section};
use ddf_seal::{SEAL, Span, clear};
use ddf_tables::layout::{
    CONTROLLER_GUID_AT, DISK_BLOCK_SIZE_AT, DISK_DATA_GUID_AT, DISK_DATA_REFERENCE_AT,
    DISK_GUID_AT, DISK_SIZE_AT,
};
use ddf_tables::{
    ArrayTable, BadBlockLog, Controller, DiskData, DiskEntry, DiskRow, DiskState, DiskTable,
    DiskType,
};
use std::alloc::Global;

/// A section that isn't there.
const ABSENT: Section = Section {
    offset: u32::MAX,
    length: 0,
};

/// Where the GUID of a controller stands in its sector.
const CONTROLLER_GUID: Span = Span {
    at: CONTROLLER_GUID_AT,
    length: 24,
};

/// Where the GUID and the reference of a disk stand in its sector.
const DISK_GUID: Span = Span {
    at: DISK_DATA_GUID_AT,
    length: 24,
};

const DISK_REFERENCE: Span = Span {
    at: DISK_DATA_REFERENCE_AT,
    length: 4,
};

/// Where the seal and the fields of a header stand, and the foreign flag and the disk grouping, which are 0.
const HEADER: [Span; 4] = [
    Span {
        at: 0,
        length: GROUPING_AT + 1,
    },
    Span {
        at: PRIMARY_LBA_AT,
        length: KIND_AT + 1 - PRIMARY_LBA_AT,
    },
    Span {
        at: WORKSPACE_LENGTH_AT,
        length: MAX_MEMBERS_AT + 2 - WORKSPACE_LENGTH_AT,
    },
    Span {
        at: SECTIONS_AT,
        length: 64,
    },
];

/// Where the fields of an entry stand.
const ENTRY: [Span; 1] = [Span {
    at: DISK_GUID_AT,
    length: DISK_SIZE_AT + 8,
}];

/// The copy of the disk at a place among the disks of a new group of a layout and a revision, by the sizes of all in sectors (profile).
pub(crate) fn new_copy(
    alloc: Global,
    layout: NewLayout,
    revision: Revision,
    stamp: &Stamp,
    sizes: &[u64],
    place: usize,
) -> Result<DiskCopy, NoMemory>
    requires few { length sizes.now ≤ rows_of layout }
    requires within { place < length sizes.now }
    requires large { (i : ℕ) → i < length sizes.now → least_sectors layout ≤ slice_index sizes.now i }
    ensures exact { IfOk result (λ copy. copy ≡ new_copy layout revision stamp.now sizes.now place) }
    // It can be written in both places of its disk.
    ensures whole { IfOk result (λ copy. IsUnder (slice_index sizes.now place) (anchor_header copy) copy) }
{
    let numbers = layout.numbers();
    let disks = new_disks(alloc, layout, revision, stamp, sizes)?;
    let arrays = new_arrays(alloc, layout)?;
    let slots = new_slots(
        alloc,
        usize::from(numbers.slots),
        512 * usize::from(numbers.record_length),
        stamp,
    )?;
    let log = new_log(alloc)?;
    Ok(DiskCopy {
        header: new_header(layout, revision, stamp, sizes[place]),
        controller: new_controller(stamp),
        disks,
        arrays,
        slots: Seq::new(slots),
        disk_data: new_disk_data(stamp, place),
        bad: Some(log),
    })
}

fn new_header(layout: NewLayout, revision: Revision, stamp: &Stamp, size: u64) -> Header
    requires { least_sectors layout ≤ size }
    ensures { result ≡ new_header layout revision stamp.now size }
{
    Header {
        kind: HeaderKind::Primary,
        guid: new_guid(GuidKind::Group, stamp, 0),
        revision,
        sequence: 1,
        timestamp: stamp.timestamp(),
        openness: 0,
        primary_lba: size - layout.primary_back(),
        secondary_lba: size - layout.secondary_back(),
        geometry: new_geometry(layout, size),
        rest: header_rest(),
    }
}

fn header_rest() -> Sector
    ensures { (header : Header) → result ≡ unread header new_header_bytes }
{
    blank_sector(&HEADER)
}

/// A sector of FF, with zeros in the places of fields.
#[tactic(auto, unfolding(crate::specs::NewCopies::new_sector_bytes))]
fn blank_sector(fields: &[Span]) -> Sector
    requires { IsTrue (list_all (is_within 512) fields.now) }
    ensures { result ≡ cleared fields.now new_sector_bytes }
{
    let mut sector = [0xFF; 512];
    clear(&mut sector, fields);
    sector
}

/// The geometry of a new disk of a layout and of so many sectors (profile).
pub fn new_geometry(layout: NewLayout, size: u64) -> Geometry
    requires { least_sectors layout ≤ size }
    ensures { result ≡ new_geometry layout size }
{
    let numbers = layout.numbers();
    let table = numbers.table_sectors;
    let records = numbers.slots * numbers.record_length;
    Geometry {
        workspace_length: WORKSPACE,
        workspace_lba: size - layout.workspace_back(),
        max_disks: numbers.rows,
        max_arrays: numbers.rows,
        max_partitions: numbers.rows,
        record_length: numbers.record_length,
        max_members: numbers.members,
        sections: [
            section_at(1, 1),
            section_at(2, table),
            section_at(2 + table, table),
            section_at(2 + 2 * table, records),
            section_at(2 + 2 * table + records, 1),
            section_at(3 + 2 * table + records, 1),
            ABSENT,
            ABSENT,
        ],
    }
}

fn section_at(offset: u16, length: u16) -> Section
    ensures { result ≡ section_at offset length }
{
    Section {
        offset: u32::from(offset),
        length: u32::from(length),
    }
}

fn new_controller(stamp: &Stamp) -> Controller
    ensures { result ≡ new_controller stamp.now }
{
    Controller {
        guid: new_guid(GuidKind::Controller, stamp, 0),
        rest: blank_sector(&[SEAL, CONTROLLER_GUID]),
    }
}

fn new_disk_data(stamp: &Stamp, place: usize) -> DiskData
    requires { place < 63 }
    ensures { result ≡ new_disk_data stamp.now place }
{
    DiskData {
        guid: disk_guid(stamp, place),
        reference: reference_at(stamp, place),
        rest: blank_sector(&[SEAL, DISK_GUID, DISK_REFERENCE]),
    }
}

fn disk_guid(stamp: &Stamp, place: usize) -> Guid
    requires { place < 63 }
    ensures { result ≡ disk_guid stamp.now place }
{
    new_guid(GuidKind::Disk, stamp, place as u32)
}

/// The reference of the disk at a place: from a chance on, and never the one that names no disk.
fn reference_at(stamp: &Stamp, place: usize) -> u32
    requires { place < 63 }
    ensures { result ≡ reference_at stamp.now place }
{
    let first = stamp.salt / (1 << 64) % ((1 << 32) - 4098);
    1 + first as u32 + place as u32
}

#[tactic(auto, unfolding(crate::specs::NewCopies::blank_disks))]
fn new_disks(
    alloc: Global,
    layout: NewLayout,
    revision: Revision,
    stamp: &Stamp,
    sizes: &[u64],
) -> Result<DiskTable, NoMemory>
    requires few { length sizes.now ≤ rows_of layout }
    requires large { (i : ℕ) → i < length sizes.now → least_sectors layout ≤ slice_index sizes.now i }
    ensures exact { IfOk result (λ table. table ≡ new_disks layout revision stamp.now sizes.now) }
    ensures writable { IfOk result (IsDiskTable (rows_of layout)) }
    ensures size { IfOk result (λ table. length table.rest ≡ 512 * table_sectors_of layout) }
{
    let numbers = layout.numbers();
    let table = DiskTable::blank(alloc, numbers.rows, usize::from(numbers.table_sectors))?;
    let rows = new_rows(alloc, layout, revision, stamp, sizes)?;
    Ok(table.replaced(rows))
}

fn new_rows(
    alloc: Global,
    layout: NewLayout,
    revision: Revision,
    stamp: &Stamp,
    sizes: &[u64],
) -> Result<Vec<DiskRow>, NoMemory>
    requires few { length sizes.now ≤ rows_of layout }
    requires large { (i : ℕ) → i < length sizes.now → least_sectors layout ≤ slice_index sizes.now i }
    ensures { IfOk result (λ rows. rows.items ≡ new_rows layout revision stamp.now sizes.now) }
{
    let mut rows = entries(alloc, layout, revision, stamp, sizes)?;
    rows.resize(
        usize::from(layout.most_disks()),
        DiskRow::Unused([0xFF; 64]),
    )?;
    Ok(rows)
}

fn entries(
    alloc: Global,
    layout: NewLayout,
    revision: Revision,
    stamp: &Stamp,
    sizes: &[u64],
) -> Result<Vec<DiskRow>, NoMemory>
    requires few { length sizes.now ≤ rows_of layout }
    requires large { (i : ℕ) → i < length sizes.now → least_sectors layout ≤ slice_index sizes.now i }
    ensures { IfOk result (λ rows. rows.items ≡ entries_from layout revision stamp.now 0 sizes.now) }
{
    let mut rows = Vec::with_capacity(alloc, usize::from(layout.most_disks()))?;
    for (place, size) in sizes.iter().enumerate() {
        rows.push(new_entry(layout, revision, stamp, place, *size))?;
    }
    Ok(rows)
}

fn new_entry(
    layout: NewLayout,
    revision: Revision,
    stamp: &Stamp,
    place: usize,
    size: u64,
) -> DiskRow
    requires within { place < rows_of layout }
    requires large { least_sectors layout ≤ size }
    ensures { result ≡ new_entry layout revision stamp.now place size }
{
    DiskRow::Entry(DiskEntry {
        guid: disk_guid(stamp, place),
        reference: reference_at(stamp, place),
        kind: DiskType(0),
        state: DiskState::ONLINE,
        size: size - layout.workspace_back(),
        rest: entry_rest(revision),
    })
}

fn entry_rest(revision: Revision) -> [u8; 64]
    ensures { (entry : DiskEntry) → result ≡ cleared (places (disk_fields entry)) (new_entry_bytes revision) }
{
    let mut rest = [0xFF; 64];
    put16(&mut rest, DISK_BLOCK_SIZE_AT, block_size_of(revision));
    clear(&mut rest, &ENTRY);
    rest
}

/// The block size in a disk's entry: it is given under the latest revision alone.
fn block_size_of(revision: Revision) -> u16
    ensures { result ≡ block_size_of revision }
{
    match revision {
        Revision::R200 => 512,
        Revision::R100 | Revision::R120 => 0xFFFF,
    }
}

#[tactic(auto, unfolding(crate::specs::NewCopies::new_arrays))]
fn new_arrays(alloc: Global, layout: NewLayout) -> Result<ArrayTable, NoMemory>
    ensures exact { IfOk result (λ table. table ≡ new_arrays layout) }
    ensures writable { IfOk result (IsArrayTable (rows_of layout)) }
    ensures size { IfOk result (λ table. length table.rest ≡ 512 * table_sectors_of layout) }
{
    let numbers = layout.numbers();
    ArrayTable::blank(alloc, numbers.rows, usize::from(numbers.table_sectors))
}

#[tactic(auto, unfolding(crate::specs::NewCopies::new_log))]
fn new_log(alloc: Global) -> Result<BadBlockLog, NoMemory>
    ensures exact { IfOk result (λ log. log ≡ new_log) }
    ensures writable { IfOk result IsLog }
    ensures size { IfOk result (λ log. length log.rest ≡ 512) }
{
    BadBlockLog::blank(alloc, 1)
}

/// So many slots of so many bytes: notes in the first, and all others unused.
fn new_slots(
    alloc: Global,
    count: usize,
    size: usize,
    stamp: &Stamp,
) -> Result<Vec<RecordSlot>, NoMemory>
    requires { 1 ≤ count }
    ensures { IfOk result (λ slots. slots.items ≡ new_slots count size stamp.now) }
{
    let mut slots = Vec::with_capacity(alloc, count)?;
    let notes = new_notes(alloc, count, stamp)?;
    slots.push(RecordSlot::Notes(notes))?;
    for _ in 1..count {
        let unused = unused_slot(alloc, size)?;
        slots.push(unused)?;
    }
    Ok(slots)
}

fn unused_slot(alloc: Global, size: usize) -> Result<RecordSlot, NoMemory>
    ensures { IfOk result (λ slot. slot ≡ unused_slot size) }
{
    let bytes = vec![in alloc; 0xFF; size]?;
    Ok(RecordSlot::Unused(Seq::new(bytes)))
}

fn new_notes(alloc: Global, count: usize, stamp: &Stamp) -> Result<Notes, NoMemory>
    ensures { IfOk result (λ notes. notes ≡ new_notes count stamp.now) }
{
    let mut slots = Vec::with_capacity(alloc, count)?;
    for _ in 0..count {
        slots.push(no_note(alloc))?;
    }
    Ok(Notes {
        group: new_guid(GuidKind::Group, stamp, 0),
        sequence: 1,
        slots: Seq::new(slots),
    })
}

fn no_note(alloc: Global) -> SlotNote
    ensures { result ≡ no_note }
{
    SlotNote {
        copied: false,
        position: u16::MAX,
        stand_in: 0,
        row: 0,
        out: Seq::new(Vec::new(alloc)),
    }
}
