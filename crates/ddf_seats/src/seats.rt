//! The seats of current members: the slots where their disks were found. docs/GROUPS.md#members
ghost use Rattle.std.specs.Prelude.{◌≡◌, option_map, IfOk};
ghost use Rattle.ddf_seats.specs.Group.{bad_count, copy_at, floor_of, seat_at, seat_of, seats_of};

use ddf_bytes::NoMemory;
use ddf_config::Seat;
use ddf_copy::{DiskCopy, Newest};
use std::alloc::Global;

/// The least LBA of a disk's workspace and headers.
fn floor_of(copy: &DiskCopy) -> u64
    ensures { result ≡ floor_of copy.now }
{
    let header = &copy.header;
    header
        .geometry
        .workspace_lba
        .min(header.primary_lba.min(header.secondary_lba))
}

/// The number of bad blocks that a disk lists.
fn bad_count(copy: &DiskCopy) -> u16
    ensures { result ≡ bad_count copy.now }
{
    match &copy.bad {
        Some(log) => log.count(),
        None => 0,
    }
}

fn seat_of(slot: usize, copy: &DiskCopy) -> Seat
    ensures { result ≡ seat_of slot copy.now }
{
    Seat {
        reference: copy.disk_data.reference,
        slot,
        floor: floor_of(copy),
        bad: bad_count(copy),
    }
}

/// The copy that stands for a slot.
pub fn copy_at(newest: &[Option<Newest>], slot: usize) -> Option<&DiskCopy>
    ensures { option_map (λ copy. copy.now) result ≡ copy_at newest.now slot }
{
    match newest.get(slot) {
        Some(Some(newest)) => newest.copy(),
        Some(None) | None => None,
    }
}

fn seat_at(newest: &[Option<Newest>], slot: usize) -> Option<Seat>
    ensures { result ≡ seat_at newest.now slot }
{
    match copy_at(newest, slot) {
        Some(copy) => Some(seat_of(slot, copy)),
        None => None,
    }
}

/// The seats of the disks in these slots.
pub fn seats_of(
    alloc: Global,
    newest: &[Option<Newest>],
    slots: &[usize],
) -> Result<Vec<Seat>, NoMemory>
    ensures { IfOk result (λ seats. seats.items ≡ seats_of newest.now slots.now) }
{
    let seats = slots
        .iter()
        .filter_map(|slot| seat_at(newest, *slot))
        .collect(alloc)?;
    Ok(seats)
}
