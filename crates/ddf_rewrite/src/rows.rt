//! The rows of a table after a change.
ghost use Rattle.std.specs.Prelude.{◌≡◌, ◌++◌, Bool, length, filter, map, not, take, replicate, IfOk, OnOk};
ghost use Rattle.ddf_tables.specs.declared.disks.DiskRow.TheVariants as disk_rows;
ghost use Rattle.ddf_tables.specs.declared.arrays.ArrayRow.TheVariants as array_rows;
ghost use Rattle.ddf_tables.specs.Disks.{is_used_disk};
ghost use Rattle.ddf_tables.specs.Arrays.{is_used_array};
ghost use Rattle.ddf_rewrite.specs.Disks.{disk_rows_after, rows_after};
ghost use Rattle.ddf_rewrite.specs.Arrays.{array_rows_after};

use ddf_bytes::NoMemory;
use ddf_tables::{ArrayEntry, ArrayRow, DiskEntry, DiskRow};
use std::alloc::Global;

/// Whether a row of a disk table is unused.
fn is_unused_disk(row: &DiskRow) -> bool
    ensures { result ≡ not (is_used_disk row.now) }
{
    matches!(row, DiskRow::Unused(_))
}

/// Whether a row of an array table is unused.
fn is_unused_array(row: &ArrayRow) -> bool
    ensures { result ≡ not (is_used_array row.now) }
{
    matches!(row, ArrayRow::Unused(_))
}

/// These entries, behind them the former unused rows, and then such rows, as many as there were.
fn disk_rows(
    alloc: Global,
    rows: &[DiskRow],
    entries: Vec<DiskEntry>,
    unused: DiskRow,
) -> Result<Vec<DiskRow>, NoMemory>
    ensures { IfOk result (λ after. after.items ≡ rows_after is_used_disk unused (map disk_rows.Entry entries.items) rows.now) }
{
    let after = entries
        .into_iter()
        .map(DiskRow::Entry)
        .chain(rows.iter().copied().filter(is_unused_disk))
        .chain(std::iter::repeat_n(unused, rows.len()))
        .take(rows.len())
        .collect(alloc)?;
    Ok(after)
}

/// The rows of a disk table with these entries: behind them the former unused rows, and then rows of FF, as many as the table has.
#[tactic(auto, unfolding(crate::specs::Disks::disk_rows_after))]
pub(crate) fn disk_rows_after(
    alloc: Global,
    rows: &[DiskRow],
    entries: Vec<DiskEntry>,
) -> Result<Vec<DiskRow>, NoMemory>
    ensures exact { IfOk result (λ after. after.items ≡ disk_rows_after rows.now entries.items) }
    ensures count { IfOk result (λ after. length after.items ≡ length rows.now) }
{
    disk_rows(alloc, rows, entries, DiskRow::Unused([0xFF; 64]))
}

/// The same of an array table.
fn array_rows(
    alloc: Global,
    rows: &[ArrayRow],
    entries: Vec<ArrayEntry>,
    unused: ArrayRow,
) -> Result<Vec<ArrayRow>, NoMemory>
    ensures { IfOk result (λ after. after.items ≡ rows_after is_used_array unused (map array_rows.Entry entries.items) rows.now) }
{
    let after = entries
        .into_iter()
        .map(ArrayRow::Entry)
        .chain(rows.iter().copied().filter(is_unused_array))
        .chain(std::iter::repeat_n(unused, rows.len()))
        .take(rows.len())
        .collect(alloc)?;
    Ok(after)
}

/// The same of an array table.
#[tactic(auto, unfolding(crate::specs::Arrays::array_rows_after))]
pub(crate) fn array_rows_after(
    alloc: Global,
    rows: &[ArrayRow],
    entries: Vec<ArrayEntry>,
) -> Result<Vec<ArrayRow>, NoMemory>
    ensures exact { IfOk result (λ after. after.items ≡ array_rows_after rows.now entries.items) }
    ensures count { IfOk result (λ after. length after.items ≡ length rows.now) }
{
    array_rows(alloc, rows, entries, ArrayRow::Unused([0xFF; 64]))
}
