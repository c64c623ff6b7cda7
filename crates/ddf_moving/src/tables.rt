//! The tables of a disk that is moved.
ghost use Rattle.std.specs.Prelude.{◌≡◌, filter, length, IfOk};
ghost use Rattle.ddf_header.specs.Geometry.{IsSound, section_of};
ghost use Rattle.ddf_tables.specs.Arrays.{is_used_array};
ghost use Rattle.ddf_tables.specs.Disks.{is_used_disk};
ghost use Rattle.ddf_moving.specs.Copies.{filled, log_for, moved_arrays, moved_disks, unused_array, unused_disk};

use ddf_bytes::NoMemory;
use ddf_header::{ARRAYS, BAD_BLOCKS, DISKS, Geometry};
use ddf_tables::{ArrayRow, ArrayTable, BadBlockLog, DiskRow, DiskTable};
use std::alloc::Global;

fn used_disks(alloc: Global, rows: &[DiskRow]) -> Result<Vec<DiskRow>, NoMemory>
    ensures { IfOk result (λ used. used.items ≡ filter is_used_disk rows.now) }
{
    let mut used = Vec::new(alloc);
    for row in rows {
        if is_used_disk(row) {
            used.push(*row)?;
        }
    }
    Ok(used)
}

fn is_used_disk(row: &DiskRow) -> bool
    ensures { result ≡ is_used_disk row.now }
{
    matches!(row, DiskRow::Entry(_))
}

fn used_arrays(alloc: Global, rows: &[ArrayRow]) -> Result<Vec<ArrayRow>, NoMemory>
    ensures { IfOk result (λ used. used.items ≡ filter is_used_array rows.now) }
{
    let mut used = Vec::new(alloc);
    for row in rows {
        if is_used_array(row) {
            used.push(*row)?;
        }
    }
    Ok(used)
}

fn is_used_array(row: &ArrayRow) -> bool
    ensures { result ≡ is_used_array row.now }
{
    matches!(row, ArrayRow::Entry(_))
}

/// The rows of a table of disks that has so many: those that are used, and then unused ones.
fn disk_rows(alloc: Global, rows: &[DiskRow], max: u16) -> Result<Vec<DiskRow>, NoMemory>
    ensures { IfOk result (λ all. all.items ≡ filled unused_disk max (filter is_used_disk rows.now)) }
{
    let mut all = used_disks(alloc, rows)?;
    all.resize(usize::from(max), DiskRow::Unused([0xFF; 64]))?;
    Ok(all)
}

/// The rows of a table of arrays that has so many: those that are used, and then unused ones.
fn array_rows(alloc: Global, rows: &[ArrayRow], max: u16) -> Result<Vec<ArrayRow>, NoMemory>
    ensures { IfOk result (λ all. all.items ≡ filled unused_array max (filter is_used_array rows.now)) }
{
    let mut all = used_arrays(alloc, rows)?;
    all.resize(usize::from(max), ArrayRow::Unused([0xFF; 64]))?;
    Ok(all)
}

/// The table of disks in another geometry.
pub(crate) fn moved_disks(
    alloc: Global,
    old: &DiskTable,
    like: &Geometry,
) -> Result<DiskTable, NoMemory>
    requires { IsSound like.now }
    ensures { IfOk result (λ table. table ≡ moved_disks old.now like.now) }
{
    let rows = disk_rows(alloc, old.rows(), like.max_disks)?;
    let sectors = like.section(DISKS).length;
    let table = DiskTable::blank(alloc, like.max_disks, sectors as usize)?;
    Ok(table.replaced(rows))
}

/// The table of arrays in another geometry.
pub(crate) fn moved_arrays(
    alloc: Global,
    old: &ArrayTable,
    like: &Geometry,
) -> Result<ArrayTable, NoMemory>
    requires { IsSound like.now }
    ensures { IfOk result (λ table. table ≡ moved_arrays old.now like.now) }
{
    let rows = array_rows(alloc, old.rows(), like.max_arrays)?;
    let sectors = like.section(ARRAYS).length;
    let table = ArrayTable::blank(alloc, like.max_arrays, sectors as usize)?;
    Ok(table.replaced(rows))
}

/// A log without entries, where the geometry has a section for one.
pub(crate) fn blank_log(alloc: Global, like: &Geometry) -> Result<Option<BadBlockLog>, NoMemory>
    requires { IsSound like.now }
    ensures { IfOk result (λ log. log ≡ log_for (section_of like.now 5)) }
{
    let sectors = like.section(BAD_BLOCKS).length;
    if sectors == 0 {
        return Ok(None);
    }
    let log = BadBlockLog::blank(alloc, sectors as usize)?;
    Ok(Some(log))
}
