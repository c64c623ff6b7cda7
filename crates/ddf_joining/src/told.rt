//! What the leaders of two groups record, as one copy tells it.
ghost use Rattle.std.specs.Prelude.{◌≡◌, ◌≤◌, ◌++◌, List, ℕ, length, filter, filter_map, is_some, map, IfOk, OnOk};
ghost use Rattle.std.specs.Map.{lookup};
ghost use Rattle.ddf_config.specs.Members.{same_guid};
ghost use Rattle.ddf_tables.specs.declared.arrays.ArrayRow.TheVariants as array_rows;
ghost use Rattle.ddf_config.specs.declared.array.Array as array_type;
ghost use Rattle.ddf_joining.specs.Telling.{Tells, array_rows_told, disk_rows_told, is_told, named_array, slots_told, used_row};

use ddf_bytes::{Guid, NoMemory, Seq};
use ddf_config::{Array, Config};
use ddf_config_records::{Element, RecordSlot};
use ddf_copy::DiskCopy;
use ddf_seats::{Disk, views_in};
use ddf_tables::{ArrayEntry, ArrayRow, ArrayTable, DiskRow, DiskTable};
use ddf_view::{disk_rows, element_of};
use indexmap::IndexMap;
use std::alloc::Global;

// ---- the disks

/// A row, where it is used.
fn used_row(row: &DiskRow) -> Option<DiskRow>
    ensures { result ≡ used_row row.now }
{
    match row {
        DiskRow::Entry(entry) => Some(DiskRow::Entry(*entry)),
        DiskRow::Unused(_) => None,
    }
}

/// The used ones of these rows, and then those of others.
fn used_rows(alloc: Global, rows: &[DiskRow], others: &[DiskRow]) -> Result<Vec<DiskRow>, NoMemory>
    ensures { IfOk result (λ used. used.items ≡ filter_map used_row rows.now ++ filter_map used_row others.now) }
{
    let used = rows
        .iter()
        .filter_map(used_row)
        .chain(others.iter().filter_map(used_row))
        .collect(alloc)?;
    Ok(used)
}

/// The rows of the disks that the first ones of two groups' disks list.
pub(crate) fn both_rows(
    alloc: Global,
    disks: &[Disk],
    others: &[Disk],
) -> Result<Vec<DiskRow>, NoMemory>
    ensures { IfOk result (λ rows. rows.items ≡ disk_rows_told disks.now ++ disk_rows_told others.now) }
{
    let own = views_in(alloc, disks)?;
    let its = views_in(alloc, others)?;
    used_rows(alloc, disk_rows(&own), disk_rows(&its))
}

// ---- the arrays

/// An array by its GUID alone.
fn named_array(guid: Guid) -> ArrayEntry
    ensures { result ≡ named_array guid }
{
    ArrayEntry {
        guid,
        number: 0,
        state: 0,
        init: 0,
        name: [0; 16],
        rest: [0; 64],
    }
}

/// Puts a row for each of these arrays behind others.
fn put_named(arrays: &IndexMap<Guid, Array>, into: &mut Vec<ArrayRow>) -> Result<(), NoMemory>
    ensures { OnOk result (into.new.items ≡ into.old.items ++ map (λ (entry : List ℕ × array_type.Array). array_rows.Entry (named_array entry.0)) arrays.now.entries) }
{
    for (guid, _array) in arrays {
        into.push(ArrayRow::Entry(named_array(*guid)))?;
    }
    Ok(())
}

/// Puts a row for each array of a configuration behind others.
pub(crate) fn put_arrays(config: &Config, into: &mut Vec<ArrayRow>) -> Result<(), NoMemory>
    ensures { OnOk result (into.new.items ≡ into.old.items ++ array_rows_told config.now) }
{
    put_named(&config.arrays, into)
}

// ---- the records

/// Whether a record is of an array that the configuration lists.
fn is_of_listed(config: &Config, element: &Element) -> bool
    ensures { result ≡ is_some (lookup (same_guid element.now.array) config.now.arrays) }
{
    config.arrays.contains_key(&element.array)
}

/// Whether a slot holds one.
fn is_told(config: &Config, slot: &RecordSlot) -> bool
    ensures { result ≡ is_told config.now slot.now }
{
    match element_of(slot) {
        Some(element) => is_of_listed(config, element),
        None => false,
    }
}

/// Puts those slots that hold such a record behind others.
fn put_told(
    alloc: Global,
    config: &Config,
    slots: &[RecordSlot],
    into: &mut Vec<RecordSlot>,
) -> Result<(), NoMemory>
    ensures { OnOk result (into.new.items ≡ into.old.items ++ filter (is_told config.now) slots.now) }
{
    for slot in slots {
        if is_told(config, slot) {
            let second = slot.duplicate(alloc)?;
            into.push(second)?;
        }
    }
    Ok(())
}

/// Puts those of these disks behind others.
pub(crate) fn put_records(
    alloc: Global,
    config: &Config,
    disks: &[Disk],
    into: &mut Vec<RecordSlot>,
) -> Result<(), NoMemory>
    ensures { OnOk result (into.new.items ≡ into.old.items ++ slots_told config.now disks.now) }
{
    for disk in disks {
        put_told(alloc, config, disk.copy.slots.items(), into)?;
    }
    Ok(())
}

// ---- the copy

/// A table of these rows.
fn disk_table_of(alloc: Global, rows: Vec<DiskRow>) -> Result<DiskTable, NoMemory>
    requires { length rows.items ≤ 65535 }
    ensures { IfOk result (λ table. table.rows ≡ rows.items) }
{
    let table = DiskTable::blank(alloc, rows.len() as u16, rows.len() / 8 + 1)?;
    Ok(table.replaced(rows))
}

fn array_table_of(alloc: Global, rows: Vec<ArrayRow>) -> Result<ArrayTable, NoMemory>
    requires { length rows.items ≤ 65535 }
    ensures { IfOk result (λ table. table.rows ≡ rows.items) }
{
    let table = ArrayTable::blank(alloc, rows.len() as u16, rows.len() / 8 + 1)?;
    Ok(table.replaced(rows))
}

/// A copy with these rows and these slots. It stands on no disk.
pub(crate) fn telling_copy(
    alloc: Global,
    like: &DiskCopy,
    rows: Vec<DiskRow>,
    arrays: Vec<ArrayRow>,
    slots: Vec<RecordSlot>,
) -> Result<DiskCopy, NoMemory>
    requires few { length rows.items ≤ 65535 }
    requires arrays { length arrays.items ≤ 65535 }
    ensures { IfOk result (Tells rows.items arrays.items slots.items) }
{
    let disks = disk_table_of(alloc, rows)?;
    let arrays = array_table_of(alloc, arrays)?;
    Ok(DiskCopy {
        header: like.header,
        controller: like.controller,
        disks,
        arrays,
        slots: Seq::new(slots),
        disk_data: like.disk_data,
        bad: None,
    })
}
