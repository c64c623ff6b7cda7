//! Which members of a group lie on disks that Linux reads, by the revision of their records: of these Linux takes one level for another.
//! docs/LINUX.md#raid-1e
ghost use Rattle.std.specs.Prelude.{◌≡◌, filter_map, IfOk};
ghost use Rattle.ddf_group_commands.specs.Requests.{is_for_linux, is_linux, linux_member, linux_members};

use ddf_assembly::Group;
use ddf_bytes::NoMemory;
use ddf_config::Seat;
use ddf_copy::Newest;
use ddf_header::Revision;
use ddf_seats::copy_at;
use std::alloc::Global;

/// Whether Linux takes disks of a revision for its own: by mdadm's source those of 01.00.00 too.
fn is_linux(revision: Revision) -> bool
    ensures { result ≡ is_linux revision }
{
    matches!(revision, Revision::R100 | Revision::R120)
}

/// Whether the copy that stands for the slot of a seat is of the revision of Linux's disks.
fn is_for_linux(newest: &[Option<Newest>], seat: &Seat) -> bool
    ensures { result ≡ is_for_linux newest.now seat.now }
{
    match copy_at(newest, seat.slot) {
        Some(copy) => is_linux(copy.header.revision),
        None => false,
    }
}

fn linux_member(newest: &[Option<Newest>], seat: &Seat) -> Option<u32>
    ensures { result ≡ linux_member newest.now seat.now }
{
    if is_for_linux(newest, seat) {
        Some(seat.reference)
    } else {
        None
    }
}

fn members_on(
    alloc: Global,
    newest: &[Option<Newest>],
    seats: &[Seat],
) -> Result<Vec<u32>, NoMemory>
    ensures { IfOk result (λ members. members.items ≡ filter_map (linux_member newest.now) seats.now) }
{
    let members = seats
        .iter()
        .filter_map(|seat| linux_member(newest, seat))
        .collect(alloc)?;
    Ok(members)
}

/// The references of those members of a group whose disks Linux reads: the copy that stands for their slot is of revision
/// 01.00.00 or 01.02.00.
pub fn linux_members(alloc: Global, group: &Group) -> Result<Vec<u32>, NoMemory>
    ensures { IfOk result (λ members. members.items ≡ linux_members group.now) }
{
    let members = members_on(alloc, group.newest(), group.seats())?;
    Ok(members)
}
