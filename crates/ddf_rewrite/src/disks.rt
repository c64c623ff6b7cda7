//! The entries of the disks after a change or a recovery. On disks for Linux they tell which are being filled: Linux takes such a disk else for
//! one with room. docs/FAULTS.md#with-linux-a-stopped-rebuild-of-a-raid-10
ghost use Rattle.std.specs.Prelude.{◌≡◌, ◌==◌, ◌&&◌, not, map, filter_map, IfOk};
ghost use Rattle.std.specs.Int.{w16};
ghost use Rattle.std.specs.List.{list_any};
ghost use Rattle.ddf_bytes.specs.Bytes.{number_at};
ghost use Rattle.ddf_view.specs.View.{disk_of};
ghost use Rattle.ddf_rewrite.specs.Wanted.{all_wanted};
ghost use Rattle.ddf_rewrite.specs.Disks.{
  block_size_of,
  changed_disks,
  disk_on,
  disks_for,
  filled,
  has_out_on,
  has_spare_bit,
  is_behind,
  is_filled,
  is_global,
  is_linux,
  is_out_on,
  is_referred,
  kind_after,
  kind_in,
  member_entry,
  recovered_disks,
  state_after,
  state_in,
};

use crate::wanted::Wanted;
use bitflags::Flags;
use ddf_bytes::{NoMemory, be16};
use ddf_config::{Config, Member, Position, SpareUse};
use ddf_header::Revision;
use ddf_tables::layout::DISK_BLOCK_SIZE_AT;
use ddf_tables::{DiskEntry, DiskRow, DiskState, DiskType};
use ddf_view::{find_disk, is_global as is_global_type, is_rebuilding};
use indexmap::IndexMap;
use std::alloc::Global;

/// The bits of a type that a change keeps: all but those of the disk's use.
const OTHER_TYPE: u16 = 0xFFF1;

/// The bits of a current disk's state that a change keeps: in transition, a predicted failure, a read error that was not made good.
const OTHER_STATE: u16 = 0x0038;

/// The block size that records are written with, in bytes: 512 from revision 02.00.00 on, and not given before.
pub(crate) fn block_size_of(revision: Revision) -> u16
    ensures { result ≡ block_size_of revision }
{
    match revision {
        Revision::R200 => 512,
        Revision::R100 | Revision::R120 => 0xFFFF,
    }
}

/// Whether a disk is a spare for every array.
fn is_global(use_as: &SpareUse) -> bool
    ensures { result ≡ is_global use_as.now }
{
    matches!(use_as, SpareUse::Global | SpareUse::Revertible)
}

/// Whether a disk is a spare for some arrays, or one for every array that gives its place back.
fn has_spare_bit(use_as: &SpareUse) -> bool
    ensures { result ≡ has_spare_bit use_as.now }
{
    matches!(use_as, SpareUse::Revertible | SpareUse::Dedicated(_))
}

/// Whether an element has a position on the disk.
fn is_referred(all: &[Wanted], reference: u32) -> bool
    ensures { result ≡ is_referred all.now reference }
{
    all.iter().any(|wanted| wanted.refers_to(reference))
}

/// Whether a position lies on the disk and is out of sync.
fn is_out_on(position: &Position, reference: u32) -> bool
    ensures { result ≡ is_out_on reference position.now }
{
    position.reference == reference && !position.synced
}

/// Whether an element has a position on the disk that is out of sync.
fn has_out_on(wanted: &Wanted, reference: u32) -> bool
    ensures { result ≡ has_out_on reference wanted.now }
{
    let plan = wanted.plan;
    out_in(plan.positions.as_slice(), reference)
}

/// Whether one of these positions lies on the disk and is out of sync.
fn out_in(positions: &[Position], reference: u32) -> bool
    ensures { result ≡ list_any (is_out_on reference) positions.now }
{
    positions
        .iter()
        .any(|position| is_out_on(position, reference))
}

/// Whether a position on the disk is out of sync.
fn is_behind(all: &[Wanted], reference: u32) -> bool
    ensures { result ≡ is_behind all.now reference }
{
    all.iter().any(|wanted| has_out_on(wanted, reference))
}

/// The type of a member's disk, which tells of its use.
#[tactic(auto, unfolding(crate::specs::Disks::kind_after))]
fn kind_after(all: &[Wanted], reference: u32, member: &Member, kept: DiskType) -> DiskType
    ensures { result.0 ≡ kind_after all.now (reference, member.now) kept.0 }
{
    let mut kind = DiskType(kept.0 & OTHER_TYPE);
    if is_referred(all, reference) {
        kind.insert(DiskType::IN_ARRAY);
    }
    if is_global(&member.spare) {
        kind.insert(DiskType::GLOBAL_SPARE);
    }
    if has_spare_bit(&member.spare) {
        kind.insert(DiskType::SPARE);
    }
    kind
}

/// The state of a member's disk.
#[tactic(auto, unfolding(crate::specs::Disks::state_after))]
fn state_after(all: &[Wanted], reference: u32, member: &Member, kept: DiskState) -> DiskState
    ensures { result.0 ≡ state_after all.now (reference, member.now) kept.0 }
{
    if member.missing {
        return DiskState(0x0042);
    }
    let mut state = DiskState(kept.0 & OTHER_STATE);
    state.insert(DiskState::ONLINE);
    if is_behind(all, reference) {
        state.insert(DiskState::REBUILDING);
    }
    state
}

/// The type that these rows give a disk, 0 where they don't have it.
fn kind_in(disks: &[DiskRow], reference: u32) -> DiskType
    ensures { result.0 ≡ kind_in (filter_map disk_of disks.now) reference }
{
    match find_disk(disks, reference) {
        Some(disk) => disk.kind,
        None => DiskType(0),
    }
}

/// The state that these rows give a disk, 0 where they don't have it.
fn state_in(disks: &[DiskRow], reference: u32) -> DiskState
    ensures { result.0 ≡ state_in (filter_map disk_of disks.now) reference }
{
    match find_disk(disks, reference) {
        Some(disk) => disk.state,
        None => DiskState(0),
    }
}

/// The named fields of a member's entry, where a leader has these rows.
fn member_entry(all: &[Wanted], leading: &[DiskRow], reference: u32, member: &Member) -> DiskEntry
    ensures { result ≡ member_entry all.now (filter_map disk_of leading.now) (reference, member.now) }
{
    DiskEntry {
        guid: member.guid,
        reference,
        kind: kind_after(all, reference, member, kind_in(leading, reference)),
        state: state_after(all, reference, member, state_in(leading, reference)),
        size: member.size,
        rest: [0; 64],
    }
}

/// What the entries of a disk's table are made of.
#[derive(Drop)]
pub(crate) struct Sources<'a, 'b> {
    /// The elements that are known.
    pub all: &'a [Wanted<'b>],
    /// The rows of the lowest leader.
    pub leading: &'a [DiskRow],
    /// The rows that the disk has.
    pub own: &'a [DiskRow],
    /// The revision of the disk.
    pub revision: Revision,
}

/// An entry on a disk that has these rows: over its own bytes, or over those of a new one.
fn disk_on(own: &[DiskRow], block_size: u16, entry: DiskEntry) -> DiskEntry
    ensures { result ≡ disk_on (filter_map disk_of own.now) block_size entry }
{
    match find_disk(own, entry.reference) {
        Some(old) => entry.over(Some(&old), block_size),
        None => entry.over(None, block_size),
    }
}

/// The entry of a member.
fn changed_disk(sources: &Sources, reference: u32, member: &Member) -> DiskEntry
    ensures { result ≡ disk_on (filter_map disk_of sources.now.own.now) (block_size_of sources.now.revision)
        (member_entry sources.now.all.now (filter_map disk_of sources.now.leading.now) (reference, member.now)) }
{
    let entry = member_entry(sources.all, sources.leading, reference, member);
    disk_on(sources.own, block_size_of(sources.revision), entry)
}

/// The entries of members, in table order.
fn entries_of(
    alloc: Global,
    sources: &Sources,
    members: &IndexMap<u32, Member>,
) -> Result<Vec<DiskEntry>, NoMemory>
    ensures { IfOk result (λ entries. entries.items ≡ map (λ entry. disk_on (filter_map disk_of sources.now.own.now) (block_size_of sources.now.revision)
        (member_entry sources.now.all.now (filter_map disk_of sources.now.leading.now) entry)) members.now.entries) }
{
    let mut entries = Vec::new(alloc);
    for (reference, member) in members {
        entries.push(changed_disk(sources, *reference, member))?;
    }
    Ok(entries)
}

/// The entries of the disks after a change, in table order.
#[tactic(auto, unfolding(crate::specs::Disks::changed_disks))]
pub(crate) fn changed_disks(
    alloc: Global,
    config: &Config,
    sources: &Sources,
) -> Result<Vec<DiskEntry>, NoMemory>
    requires { sources.now.all.now ≡ all_wanted config.now }
    ensures { IfOk result (λ entries. entries.items
        ≡ changed_disks config.now (filter_map disk_of sources.now.leading.now) sources.now.revision (filter_map disk_of sources.now.own.now)) }
{
    entries_of(alloc, sources, &config.members)
}

/// The entry of a disk that the lowest leader records.
fn recovered_disk(own: &[DiskRow], disk: DiskEntry) -> DiskEntry
    ensures { result ≡ disk_on (filter_map disk_of own.now) (number_at w16 disk.rest DISK_BLOCK_SIZE_AT) disk }
{
    disk_on(own, be16(&disk.rest, DISK_BLOCK_SIZE_AT), disk)
}

/// The entries of the disks after a recovery, in table order, where the lowest leader has these rows.
#[tactic(auto, unfolding(crate::specs::Disks::recovered_disks))]
pub(crate) fn recovered_disks(
    alloc: Global,
    leading: &[DiskRow],
    own: &[DiskRow],
) -> Result<Vec<DiskEntry>, NoMemory>
    ensures { IfOk result (λ entries. entries.items ≡ recovered_disks (filter_map disk_of leading.now) (filter_map disk_of own.now)) }
{
    let mut entries = Vec::new(alloc);
    for row in leading {
        if let DiskRow::Entry(disk) = row {
            entries.push(recovered_disk(own, *disk))?;
        }
    }
    Ok(entries)
}

/// Whether Linux reads the disks of a revision.
fn is_linux(revision: Revision) -> bool
    ensures { result ≡ is_linux revision }
{
    matches!(revision, Revision::R120)
}

/// Whether the table of a disk of a revision tells Linux that a disk is being filled.
fn is_filled(all: &[Wanted], revision: Revision, noted: bool, disk: &DiskEntry) -> bool
    ensures { result ≡ is_filled revision noted all.now disk.now }
{
    is_rebuilding(disk.state)
        && !is_global_type(disk.kind)
        && is_linux(revision)
        && noted
        && is_behind(all, disk.reference)
}

/// An entry as the table of a disk of a revision has it.
fn filled(all: &[Wanted], revision: Revision, noted: bool, disk: DiskEntry) -> DiskEntry
    ensures { result ≡ filled revision noted all.now disk }
{
    let mut kind = disk.kind;
    if is_filled(all, revision, noted, &disk) {
        kind.insert(DiskType::SPARE);
    }
    DiskEntry { kind, ..disk }
}

/// Entries as the table of a disk of a revision has them, where a leader has valid notes or none has.
#[tactic(auto, unfolding(crate::specs::Disks::disks_for))]
pub(crate) fn disks_for(
    alloc: Global,
    config: &Config,
    all: &[Wanted],
    revision: Revision,
    noted: bool,
    disks: &[DiskEntry],
) -> Result<Vec<DiskEntry>, NoMemory>
    requires { all.now ≡ all_wanted config.now }
    ensures { IfOk result (λ entries. entries.items ≡ disks_for revision noted config.now disks.now) }
{
    let mut entries = Vec::new(alloc);
    for disk in disks {
        entries.push(filled(all, revision, noted, *disk))?;
    }
    Ok(entries)
}
