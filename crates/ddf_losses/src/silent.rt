//! Slots that show no member of a group.
use crate::strays::has_slot;
use ddf_assembly::Group;
use ddf_bay::Bay;
use ddf_bytes::{Guid, Hex32, NoMemory};
use ddf_copy::{AnchorFault, Newest, ShowFault, anchor_of, newest};
use ddf_header::Header;
use ddf_name::NameText;
use std::alloc::Global;
use std::fmt;

/// Why a slot doesn't show a member that may be its disk's.
#[derive(Clone, Copy)]
pub enum Silence {
    /// Its last sector is no anchor.
    Blank,
    /// Its anchor is damaged.
    Damaged,
    /// Neither of its copies is whole.
    NotWhole,
    /// A call on it failed.
    Failed,
    /// It is the disk of a member that the group lists as missing.
    Dropped(u32),
    /// So it is, and the array of this name is failed.
    Needed(u32, [u8; 16]),
}

impl Silence {
    /// The same, where the array of this name is failed.
    pub fn beside(self, failed: &Option<[u8; 16]>) -> Silence {
        match (self, failed) {
            (Silence::Dropped(reference), Some(name)) => Silence::Needed(reference, *name),
            _ => self,
        }
    }

    /// Whether it is the disk of a member that the group lists as missing.
    pub fn is_dropped(&self) -> bool {
        matches!(self, Silence::Dropped(_) | Silence::Needed(_, _))
    }
}

impl fmt::Display for Silence {
    fn fmt<W: fmt::Write>(&self, f: &mut fmt::Formatter<W>) -> fmt::Result {
        match self {
            Silence::Blank => f.write_str(
                "shows no member: its last sector is no anchor (is it another disk, or an image that was cut short or grown?)",
            ),
            Silence::Damaged => {
                f.write_str("shows no member: the anchor in its last sector is damaged")
            }
            Silence::NotWhole => {
                f.write_str("shows no member: neither of its copies of the records is whole")
            }
            Silence::Failed => f.write_str("shows no member: a read of it failed"),
            Silence::Dropped(reference) => write!(
                f,
                "is the disk of member {}, which the group lists as missing: the group has gone on without it, and doesn't take it back; wipe its records (wipefs -a -t ddf_raid_member), label it, and import it as a new disk",
                Hex32(*reference)
            ),
            Silence::Needed(reference, name) => write!(
                f,
                "is the disk of member {}, which the group lists as missing: the group has gone on without it, and doesn't take it back; array {} is failed, and this disk may be all that has some of its blocks, so wipe nothing and write nothing to it (docs/STOPS.md, under 'A disk wasn't named'; docs/RESCUE.md)",
                Hex32(*reference),
                NameText(name)
            ),
        }
    }
}

/// What a slot shows.
#[derive(Clone, Copy)]
enum Shown {
    /// No member of any group.
    Nothing(Silence),
    /// The disk of this GUID and reference.
    Disk(Guid, u32),
}

/// Why a slot shows no member. Nothing where it is a member's, or shows that it is no absent one's.
pub fn silence_of<B: Bay>(
    alloc: Global,
    bay: &mut B,
    slot: usize,
    group: &Group,
) -> Result<Option<Silence>, NoMemory> {
    if slot >= bay.slots() || has_slot(group.seats(), slot) {
        return Ok(None);
    }
    match shown_at(alloc, bay, slot)? {
        Shown::Nothing(silence) => Ok(Some(silence)),
        Shown::Disk(guid, reference) => Ok(silence_in(group, &guid, reference)),
    }
}

/// Why a slot shows no group at all, where it doesn't.
pub fn silence_alone<B: Bay>(
    alloc: Global,
    bay: &mut B,
    slot: usize,
) -> Result<Option<Silence>, NoMemory> {
    match shown_at(alloc, bay, slot)? {
        Shown::Nothing(silence) => Ok(Some(silence)),
        Shown::Disk(_, _) => Ok(None),
    }
}

/// What a slot shows.
fn shown_at<B: Bay>(alloc: Global, bay: &mut B, slot: usize) -> Result<Shown, NoMemory> {
    if slot >= bay.slots() {
        return Ok(Shown::Nothing(Silence::Failed));
    }
    match anchor_of(bay, slot) {
        Ok(anchor) => shown_under(alloc, bay, slot, &anchor),
        Err(AnchorFault::Blank) => Ok(Shown::Nothing(Silence::Blank)),
        Err(AnchorFault::Damaged(_)) => Ok(Shown::Nothing(Silence::Damaged)),
        Err(AnchorFault::Disk(_)) => Ok(Shown::Nothing(Silence::Failed)),
    }
}

/// What a slot with this anchor shows.
fn shown_under<B: Bay>(
    alloc: Global,
    bay: &mut B,
    slot: usize,
    anchor: &Header,
) -> Result<Shown, NoMemory> {
    if slot >= bay.slots() {
        return Ok(Shown::Nothing(Silence::Failed));
    }
    match newest(alloc, bay, slot, anchor) {
        Ok(newest) => Ok(shown_by(&newest)),
        Err(ShowFault::Disk(_)) => Ok(Shown::Nothing(Silence::Failed)),
        Err(ShowFault::Memory) => Err(NoMemory),
    }
}

/// What a newest copy shows.
fn shown_by(newest: &Newest) -> Shown {
    match newest.copy() {
        None => Shown::Nothing(Silence::NotWhole),
        Some(copy) => Shown::Disk(copy.disk_data.guid, copy.disk_data.reference),
    }
}

/// Why a slot with this disk shows no member. One that shows an absent member was left out for a read that failed before.
fn silence_in(group: &Group, guid: &Guid, reference: u32) -> Option<Silence> {
    if group.absent().contains(&reference) {
        return Some(Silence::Failed);
    }
    match group.config().members.get(&reference) {
        Some(member) if member.missing && member.guid == *guid => {
            Some(Silence::Dropped(reference))
        }
        _ => None,
    }
}
