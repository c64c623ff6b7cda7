//! Which group is meant: the named one, or the only one that no other absorbs. Two that are there are never chosen between.
//! docs/GROUPS.md#which-group-the-disks-are
ghost use Rattle.std.specs.Prelude.{◌≡◌, ◌&&◌, ◌||◌, not, option_map};
ghost use Rattle.std.specs.List.{list_all};
ghost use Rattle.ddf_group.specs.Slots.{claims_by, numbers, shows_group, slot_at};
ghost use Rattle.ddf_group.specs.Choice.{absorbs, absorbs_at, chosen, first_free, is_absorbed, is_shown, only_group, other_free, shows_free};

use crate::Assembly;
use crate::slots::Slots;
use ddf_bytes::Guid;
use ddf_view::View;

/// Whether a leader claims no slot that shows a group.
fn claims_none(slots: &Slots, leader: Option<&View>, group: &Guid) -> bool
    ensures { result ≡ list_all (λ slot. not (shows_group group.now (slot_at slots.now slot) && claims_by (option_map (λ view. view.now) leader.entry) (slot_at slots.now slot))) (numbers slots.now) }
{
    (0..slots.count()).all(|slot| !(slots.shows(group, slot) && slots.is_claimed(leader, slot)))
}

/// Whether a leader claims each slot that shows a group.
fn claims_all(slots: &Slots, leader: Option<&View>, group: &Guid) -> bool
    ensures { result ≡ list_all (λ slot. not (shows_group group.now (slot_at slots.now slot)) || claims_by (option_map (λ view. view.now) leader.entry) (slot_at slots.now slot)) (numbers slots.now) }
{
    (0..slots.count()).all(|slot| !slots.shows(group, slot) || slots.is_claimed(leader, slot))
}

/// Whether a group claims each slot that shows the other one, which claims none of its slots.
fn absorbs(slots: &Slots, group: &Guid, other: &Guid) -> bool
    ensures { result ≡ absorbs slots.now group.now other.now }
{
    claims_none(slots, slots.leading_view(other), group)
        && claims_all(slots, slots.leading_view(group), other)
}

/// Whether the group that a slot shows absorbs another one.
fn absorbs_at(slots: &Slots, other: &Guid, slot: usize) -> bool
    ensures { result ≡ absorbs_at slots.now other.now slot }
{
    match slots.group(slot) {
        Some(group) => absorbs(slots, &group, other),
        None => false,
    }
}

fn is_absorbed(slots: &Slots, group: &Guid) -> bool
    ensures { result ≡ is_absorbed slots.now group.now }
{
    (0..slots.count()).any(|slot| absorbs_at(slots, group, slot))
}

/// Whether a slot shows a group that isn't absorbed.
fn shows_free(slots: &Slots, slot: usize) -> bool
    ensures { result ≡ shows_free slots.now slot }
{
    match slots.group(slot) {
        Some(group) => !is_absorbed(slots, &group),
        None => false,
    }
}

#[tactic(auto, unfolding(crate::specs::Choice::first_free))]
fn first_free(slots: &Slots) -> Option<usize>
    ensures { result ≡ first_free slots.now }
{
    (0..slots.count()).find(|slot| shows_free(slots, *slot))
}

/// The first slot that shows a group that isn't absorbed, and isn't this one.
#[tactic(auto, unfolding(crate::specs::Choice::other_free))]
fn other_free(slots: &Slots, group: &Guid) -> Option<usize>
    ensures { result ≡ other_free slots.now group.now }
{
    (0..slots.count()).find(|slot| !slots.shows(group, *slot) && shows_free(slots, *slot))
}

/// The only group that isn't absorbed.
fn only_group(slots: &Slots) -> Result<Guid, Assembly>
    ensures { result ≡ only_group slots.now (first_free slots.now) }
{
    let Some(slot) = first_free(slots) else {
        return Err(Assembly::NoGroup);
    };
    let Some(group) = slots.group(slot) else {
        return Err(Assembly::NoGroup);
    };
    match other_free(slots, &group) {
        Some(other) => Err(Assembly::SeveralGroups(slot, other)),
        None => Ok(group),
    }
}

/// Whether some slot shows the group.
fn is_shown(slots: &Slots, group: &Guid) -> bool
    ensures { result ≡ is_shown slots.now group.now }
{
    (0..slots.count()).any(|slot| slots.shows(group, slot))
}

/// The group that is meant.
#[tactic(auto, unfolding(crate::specs::Choice::chosen))]
pub(crate) fn chosen(slots: &Slots, named: Option<Guid>) -> Result<Guid, Assembly>
    ensures { result ≡ chosen slots.now named }
{
    let Some(group) = named else {
        return only_group(slots);
    };
    if is_shown(slots, &group) {
        Ok(group)
    } else {
        Err(Assembly::NoGroup)
    }
}
