//! What stands in the way of a move.
ghost use Rattle.std.specs.Prelude.{◌≡◌, ◌+◌, ◌*◌, ◌<◌, ◌≤◌, ◌^◌, false};
ghost use Rattle.ddf_moving.specs.Obstacles.{
  end_meets_copies,
  front_meets_others,
  has_foreign,
  has_many_members,
  is_foreign,
  is_short,
  is_wide,
  obstacle,
  reaches_anchor,
  front_of,
  end_of_workspace,
};

use crate::numbers::same_records;
use crate::obstacle::Obstacle;
use crate::stretch::Stretch;
use ddf_config::Extent;
use ddf_config_records::RecordSlot;
use ddf_copy::DiskCopy;
use ddf_header::{DIAGNOSTIC, Geometry, VENDOR_LOGS};
use ddf_import::DESK_SECTORS;

/// The first obstacle to the move of a disk of so many sectors, which gets the numbers of another one: `room` is the most sectors that its copies
/// may take, and `extents` are those that lie on it.
#[tactic(auto, unfolding(crate::specs::Obstacles::obstacle))]
pub fn first_obstacle(
    disk: &DiskCopy,
    like: &DiskCopy,
    size: u64,
    room: u64,
    extents: &[Extent],
) -> Option<Obstacle>
    requires { room ≤ 2 ^ 55 }
    ensures { result ≡ obstacle disk.now like.now size room extents.now }
{
    let geometry = &disk.header.geometry;
    if reaches_anchor(geometry, size) {
        return Some(Obstacle::Workspace);
    }
    if is_short(geometry, room) {
        return Some(Obstacle::Workspace);
    }
    let end = end_of_workspace(geometry, room);
    let front = front_of(geometry);
    if end_meets_copies(disk, &end) {
        return Some(Obstacle::Records);
    }
    if front_meets_others(disk, &front) {
        return Some(Obstacle::Front);
    }
    if end.meets_extents(extents) || front.meets_extents(extents) {
        return Some(Obstacle::Extents);
    }
    if !same_records(geometry, &like.header.geometry) && has_foreign(disk.slots.items()) {
        return Some(Obstacle::Unknown);
    }
    if has_many_members(like.header.geometry.max_members, disk.slots.items()) {
        return Some(Obstacle::Members);
    }
    None
}

/// Whether a workspace doesn't end before the last sector.
fn reaches_anchor(geometry: &Geometry, size: u64) -> bool
    ensures exact { result ≡ reaches_anchor geometry.now size }
    ensures ends { result ≡ false → geometry.now.workspace_lba + geometry.now.workspace_length < size }
{
    let end = u128::from(geometry.workspace_lba) + u128::from(geometry.workspace_length);
    end >= u128::from(size)
}

/// Whether a workspace has no room for two copies of so many sectors and for the sectors that stay.
fn is_short(geometry: &Geometry, room: u64) -> bool
    requires { room ≤ 2 ^ 55 }
    ensures exact { result ≡ is_short geometry.now room }
    ensures long { result ≡ false → 2 * room + 18 ≤ geometry.now.workspace_length }
{
    u64::from(geometry.workspace_length) < 2 * room + DESK_SECTORS
}

/// The sectors at the end of a workspace that two copies of so many sectors take.
fn end_of_workspace(geometry: &Geometry, room: u64) -> Stretch
    requires ends { geometry.now.workspace_lba + geometry.now.workspace_length < 2 ^ 64 }
    requires long { 2 * room ≤ geometry.now.workspace_length }
    ensures { result ≡ end_of_workspace geometry.now room }
{
    let both = 2 * room;
    Stretch {
        from: geometry.workspace_lba + u64::from(geometry.workspace_length) - both,
        many: both,
    }
}

/// The sectors at the front of a workspace, which stay.
fn front_of(geometry: &Geometry) -> Stretch
    ensures { result ≡ front_of geometry.now }
{
    Stretch {
        from: geometry.workspace_lba,
        many: DESK_SECTORS,
    }
}

/// Whether sectors are those of a header or of a section, of either copy.
fn end_meets_copies(disk: &DiskCopy, end: &Stretch) -> bool
    ensures { result ≡ end_meets_copies disk.now end.now }
{
    let geometry = &disk.header.geometry;
    end.meets_copy(disk.header.primary_lba, geometry)
        || end.meets_copy(disk.header.secondary_lba, geometry)
}

/// Whether sectors are those of diagnostic space or of a vendor's log, of either copy.
fn front_meets_others(disk: &DiskCopy, front: &Stretch) -> bool
    ensures { result ≡ front_meets_others disk.now front.now }
{
    let geometry = &disk.header.geometry;
    let space = geometry.section(DIAGNOSTIC);
    let logs = geometry.section(VENDOR_LOGS);
    front.has_sector_of(disk.header.primary_lba, &space)
        || front.has_sector_of(disk.header.primary_lba, &logs)
        || front.has_sector_of(disk.header.secondary_lba, &space)
        || front.has_sector_of(disk.header.secondary_lba, &logs)
}

fn is_foreign(slot: &RecordSlot) -> bool
    ensures { result ≡ is_foreign slot.now }
{
    matches!(slot, RecordSlot::Vendor(_, _) | RecordSlot::Unread(_, _))
}

fn has_foreign(slots: &[RecordSlot]) -> bool
    ensures { result ≡ has_foreign slots.now }
{
    slots.iter().any(is_foreign)
}

fn is_wide(most: u16, slot: &RecordSlot) -> bool
    ensures { result ≡ is_wide most slot.now }
{
    match slot {
        RecordSlot::Element(element) | RecordSlot::Copied(element) => {
            element.members.len() > usize::from(most)
        }
        _ => false,
    }
}

fn has_many_members(most: u16, slots: &[RecordSlot]) -> bool
    ensures { result ≡ has_many_members most slots.now }
{
    slots.iter().any(|slot| is_wide(most, slot))
}
