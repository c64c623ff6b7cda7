//! The used entries of the physical disk records.
ghost use Rattle.std.specs.Prelude.{◌≡◌, ◌==◌, ◌&&◌, find, filter_map, map, filter, ◌++◌, Option};
ghost use Rattle.std.specs.List.{list_all, zip};
ghost use Rattle.std.specs.Cmp.Lexicographic.{pointwise};
ghost use Rattle.std.specs.Str.{bytes_eq};
ghost use Rattle.std.specs.Ordering.{nat_cmp};
ghost use Rattle.ddf_view.specs.View.{find_disk, disk_of};
ghost use Rattle.ddf_view.specs.Differ.{numbered_disk, same_disk, same_disk_row, disk_differs, least, differing_disks, told_kind};

use crate::flags::{is_global, is_rebuilding};
use ddf_bytes::Guid;
use ddf_tables::{DiskEntry, DiskRow};

/// The bits of a type that are compared where a disk is being rebuilt and is no spare for every array: all but that of a spare for some. There it tells Linux
/// that the disk is being filled, and only the disks that Linux reads have it.
const TOLD_TYPE: u16 = 0xFFF7;

/// The disk of a row that is used.
pub(crate) fn disk_of(row: &DiskRow) -> Option<DiskEntry>
    ensures { result ≡ disk_of row.now }
{
    match row {
        DiskRow::Entry(entry) => Some(*entry),
        DiskRow::Unused(_) => None,
    }
}

/// The disk with this reference among the used rows.
pub fn find_disk(rows: &[DiskRow], reference: u32) -> Option<DiskEntry>
    ensures { result ≡ find_disk reference (filter_map disk_of rows.now) }
{
    rows.iter()
        .filter_map(disk_of)
        .find(|disk| disk.reference == reference)
}

/// The disk with this GUID and this reference.
pub(crate) fn find_entry(rows: &[DiskRow], guid: &Guid, reference: u32) -> Option<DiskEntry>
    ensures { result ≡ find (λ disk. disk.reference == reference && bytes_eq disk.guid guid.now) (filter_map disk_of rows.now) }
{
    rows.iter()
        .filter_map(disk_of)
        .find(|disk| disk.reference == reference && disk.guid == *guid)
}

/// A disk with its place among the used entries.
pub(crate) fn numbered_disk(rows: &[DiskRow], reference: u32) -> Option<(usize, DiskEntry)>
    ensures { result ≡ numbered_disk reference (filter_map disk_of rows.now) }
{
    rows.iter()
        .filter_map(disk_of)
        .enumerate()
        .find(|(_, disk)| disk.reference == reference)
}

/// The type of a disk as it is compared.
fn told_kind(disk: &DiskEntry) -> u16
    ensures { result ≡ told_kind disk.now }
{
    if is_rebuilding(disk.state) && !is_global(disk.kind) {
        disk.kind.0 & TOLD_TYPE
    } else {
        disk.kind.0
    }
}

fn same_disk(one: &(usize, DiskEntry), other: &(usize, DiskEntry)) -> bool
    ensures { result ≡ same_disk one.now other.now }
{
    one.0 == other.0
        && one.1.guid == other.1.guid
        && told_kind(&one.1) == told_kind(&other.1)
        && one.1.state == other.1.state
        && one.1.size == other.1.size
}

/// Whether two tables differ in the disk with this reference.
fn disk_differs(one: &[DiskRow], other: &[DiskRow], reference: u32) -> bool
    ensures { result ≡ disk_differs (filter_map disk_of one.now) (filter_map disk_of other.now) reference }
{
    match (
        numbered_disk(one, reference),
        numbered_disk(other, reference),
    ) {
        (Some(first), Some(second)) => !same_disk(&first, &second),
        (None, None) => false,
        (Some(_), None) | (None, Some(_)) => true,
    }
}

/// Whether two rows at one place of two tables have one disk alike, or none.
fn same_disk_row(one: &DiskRow, other: &DiskRow) -> bool
    ensures { result ≡ same_disk_row one.now other.now }
{
    match (one, other) {
        (DiskRow::Entry(first), DiskRow::Entry(second)) => {
            first.reference == second.reference && same_disk(&(0, *first), &(0, *second))
        }
        (DiskRow::Unused(_), DiskRow::Unused(_)) => true,
        (DiskRow::Entry(_), DiskRow::Unused(_)) | (DiskRow::Unused(_), DiskRow::Entry(_)) => false,
    }
}

fn each_same_disk(one: &[DiskRow], other: &[DiskRow]) -> bool
    ensures { result ≡ list_all (λ pair. same_disk_row pair.0 pair.1) (zip one.now other.now) }
{
    one.iter()
        .zip(other)
        .all(|(first, second)| same_disk_row(first, second))
}

/// Whether two tables have the same disks at the same places.
fn same_disks(one: &[DiskRow], other: &[DiskRow]) -> bool
    ensures { result ≡ pointwise same_disk_row one.now other.now }
{
    one.len() == other.len() && each_same_disk(one, other)
}

/// The least reference of a disk in which two tables differ. Where each row is as the other's no disk is looked up.
pub(crate) fn least_disk(one: &[DiskRow], other: &[DiskRow]) -> Option<u32>
    ensures { result ≡ least nat_cmp (differing_disks (filter_map disk_of one.now) (filter_map disk_of other.now)) }
{
    if same_disks(one, other) {
        None
    } else {
        least_of_disks(one, other)
    }
}

/// The least reference of a disk in which two tables differ, by the disks of both.
fn least_of_disks(one: &[DiskRow], other: &[DiskRow]) -> Option<u32>
    ensures { result ≡ least nat_cmp (differing_disks (filter_map disk_of one.now) (filter_map disk_of other.now)) }
{
    one.iter()
        .filter_map(disk_of)
        .chain(other.iter().filter_map(disk_of))
        .map(|disk| disk.reference)
        .filter(|reference| disk_differs(one, other, *reference))
        .min()
}
