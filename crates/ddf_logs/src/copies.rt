//! What the copies of a disk say together: which of them stands for the disk, how many sectors it gives to arrays, and whether they carry one
//! bad block log.
ghost use Rattle.std.specs.Prelude.{◌≡◌, ◌==◌, ◌&&◌, find, filter_map, length, option_map};
ghost use Rattle.std.specs.Cmp.Lexicographic.{pointwise};
ghost use Rattle.std.specs.Option.{option_map_or};
ghost use Rattle.std.specs.Str.{bytes_eq};
ghost use Rattle.ddf_copy.specs.Copies.{newest_of_copies, standing_copy};
ghost use Rattle.ddf_logs.specs.Logs.{carry_one, configured_size, disk_of, entries_of, newer, same_block, same_log, same_logs};

use ddf_bytes::Guid;
use ddf_copy::{Copies, CopyFault, DiskCopy};
use ddf_tables::{BadBlock, BadBlockLog, DiskEntry, DiskRow};

/// The copy that stands for a disk: of two whole ones that of the greater sequence, and of one sequence the primary one.
pub(crate) fn standing(copies: &Copies) -> Option<&DiskCopy>
    ensures { option_map (λ copy. copy.now) result ≡ standing_copy (newest_of_copies copies.now) }
{
    match (&copies.primary, &copies.secondary) {
        (Ok(primary), Ok(secondary)) => Some(newer(primary, secondary)),
        (Ok(primary), Err(_)) => Some(primary),
        (Err(_), Ok(secondary)) => Some(secondary),
        (Err(_), Err(_)) => None,
    }
}

fn newer<'a>(primary: &'a DiskCopy, secondary: &'a DiskCopy) -> &'a DiskCopy
    ensures { result.now ≡ newer primary.now secondary.now }
{
    if primary.header.sequence < secondary.header.sequence {
        secondary
    } else {
        primary
    }
}

/// How many sectors a disk gives to arrays, by its own entry among those that it lists.
pub(crate) fn configured_size(copy: &DiskCopy) -> Option<u64>
    ensures { result ≡ configured_size copy.now }
{
    let own = &copy.disk_data;
    match find_entry(copy.disks.rows(), &own.guid, own.reference) {
        Some(entry) => Some(entry.size),
        None => None,
    }
}

/// The entry of a disk among used rows.
fn find_entry(rows: &[DiskRow], guid: &Guid, reference: u32) -> Option<DiskEntry>
    ensures { result ≡ find (λ entry. entry.reference == reference && bytes_eq entry.guid guid.now) (filter_map disk_of rows.now) }
{
    rows.iter().filter_map(disk_of).find(|entry| entry.reference == reference
        && entry.guid == *guid)
}

/// The disk of a row that is used.
fn disk_of(row: &DiskRow) -> Option<DiskEntry>
    ensures { result ≡ disk_of row.now }
{
    match row {
        DiskRow::Entry(entry) => Some(*entry),
        DiskRow::Unused(_) => None,
    }
}

/// Whether the copies that are whole carry one bad block log.
pub(crate) fn carry_one(copies: &Copies) -> bool
    ensures { result ≡ carry_one copies.now.primary copies.now.secondary }
{
    match (&copies.primary, &copies.secondary) {
        (Ok(primary), Ok(secondary)) => same_logs(&primary.bad, &secondary.bad),
        _ => true,
    }
}

fn same_logs(one: &Option<BadBlockLog>, other: &Option<BadBlockLog>) -> bool
    ensures { result ≡ same_logs one.now other.now }
{
    match (one, other) {
        (Some(one), Some(other)) => same_log(one, other),
        (None, None) => true,
        _ => false,
    }
}

/// Whether two logs have the same entries in order, and the same spare blocks.
fn same_log(one: &BadBlockLog, other: &BadBlockLog) -> bool
    ensures { result ≡ same_log one.now other.now }
{
    same_entries(one.entries(), other.entries())
        && one.spare_count() == other.spare_count()
        && one.first_spare() == other.first_spare()
}

fn same_entries(one: &[BadBlock], other: &[BadBlock]) -> bool
    ensures { result ≡ pointwise same_block one.now other.now }
{
    one == other
}

/// How many entries a copy lists that is whole.
pub(crate) fn entries_of(copy: &Result<DiskCopy, CopyFault>) -> u16
    ensures { result ≡ entries_of copy.now }
{
    match copy {
        Ok(copy) => listed(&copy.bad),
        Err(_) => 0,
    }
}

fn listed(log: &Option<BadBlockLog>) -> u16
    ensures { result ≡ option_map_or (λ log. length log.entries) log.now 0 }
{
    match log {
        Some(log) => log.count(),
        None => 0,
    }
}
