//! Which disk holds the position of an array that goes back from a revertible spare, and what a `copyback` did. docs/COMMANDS.md#copyback
use crate::arrays_after::lies_on;
use crate::shown::group_shown;
use ddf_assembly::Group;
use ddf_bay::Bay;
use ddf_config::{Array, ElementPlan, slot_of};
use ddf_edge::OneLine;
use ddf_name::NameText;
use ddf_request::named_array;
use ddf_words::{Asked, Command};
use std::str;

/// The number of slots that there may be: it is no slot's.
const NO_SLOT: usize = 64;

/// The slot of the spare that holds the position which a `copyback` takes, of no other command. Standard error says which image that is, and where it
/// would be copied, unless that disk is one that it can't go to.
pub fn name_stand_in<R, B: Bay>(
    rt: &R,
    bay: &mut B,
    paths: &[String],
    asked: &Asked,
) -> Option<usize>
where
    R: Eprint + AllocGlobal,
{
    let Command::Copyback { name, slot } = &asked.command else {
        return None;
    };
    let Ok(Some(group)) = group_shown(rt, bay, asked.group) else {
        return None;
    };
    let Some((_, array)) = named_array(&group.config().arrays, name.items()) else {
        return None;
    };
    let Some(holder) = stand_in_of(&group, array) else {
        return None;
    };
    let to = usize::from(*slot);
    if is_free_for(&group, array, to) {
        if let Ok(text) = str::from_utf8(name.items()) {
            tell_going(rt, paths, OneLine(text), holder, to);
        }
    }
    Some(holder)
}

fn tell_going<R: Eprint>(rt: &R, paths: &[String], name: OneLine<'_>, holder: usize, to: usize) {
    if let (Some(path), Some(goal)) = (paths.get(holder), paths.get(to)) {
        let path = OneLine(path);
        let goal = OneLine(goal);
        let _ = eprintln!(rt;
            "ddf: array {name}: slot {holder} ({path}) holds the position until a copyback to slot {to} ({goal}) is done; one begins at the first sector, also where an earlier one was stopped"
        );
    }
}

/// Whether the disk of a slot is a member that is no spare, and on which an array doesn't lie.
fn is_free_for(group: &Group, array: &Array, slot: usize) -> bool {
    for seat in group.seats() {
        if seat.slot == slot {
            return !is_spare_at(group, slot) && !lies_on(array, &[seat.reference]);
        }
    }
    false
}

/// Names on standard error each revertible spare that stands in for a lost disk, and how it gives its place back.
pub(crate) fn name_standing<R: Eprint>(rt: &R, paths: &[String], group: &Group) {
    for (_, array) in &group.config().arrays {
        let first = stand_in_of(group, array);
        for element in array.elements.items().iter().flatten() {
            if let Some(slot) = stand_in_in(group, element) {
                tell_standing(rt, paths, array, slot, first == Some(slot));
            }
        }
    }
}

/// Names one of the spares that stand in for an array. A `copyback` takes what the first of them holds.
fn tell_standing<R: Eprint>(rt: &R, paths: &[String], array: &Array, slot: usize, is_first: bool) {
    let Some(path) = paths.get(slot) else {
        return;
    };
    let name = NameText(&array.name);
    let path = OneLine(path);
    let _ = if is_first {
        eprintln!(rt;
            "ddf: array {name}: slot {slot} ({path}) is a revertible spare that stands in for a lost disk; copyback {name} SLOT moves what it holds to the disk in SLOT"
        )
    } else {
        eprintln!(rt;
            "ddf: array {name}: slot {slot} ({path}) is a revertible spare that stands in for a lost disk; copyback takes what it holds once those named before it have gone back"
        )
    };
}

/// The slot of the first spare that stands in at an element of an array, where it is there.
fn stand_in_of(group: &Group, array: &Array) -> Option<usize> {
    for element in array.elements.items().iter().flatten() {
        if let Some(slot) = stand_in_in(group, element) {
            return Some(slot);
        }
    }
    None
}

/// Whether the spare in a slot stands in at an element of an array.
pub(crate) fn stands_in(group: &Group, array: &Array, slot: usize) -> bool {
    for element in array.elements.items().iter().flatten() {
        if stand_in_in(group, element) == Some(slot) {
            return true;
        }
    }
    false
}

fn stand_in_in(group: &Group, element: &ElementPlan) -> Option<usize> {
    if element.stand_in == 0 {
        return None;
    }
    let slot = slot_of(group.seats(), element.stand_in);
    let holds = element.positions.as_slice().iter().any(|position| position.synced
        && position.reference == element.stand_in);
    if holds && slot < NO_SLOT {
        Some(slot)
    } else {
        None
    }
}

/// Says on standard error which image holds the position behind a `copyback` that is done, and what became of the spare that held it.
pub fn tell_back<R, B: Bay>(
    rt: &R,
    bay: &mut B,
    paths: &[String],
    asked: &Asked,
    holder: Option<usize>,
)
where
    R: Eprint + AllocGlobal,
{
    let (Command::Copyback { name, slot }, Some(holder)) = (&asked.command, holder) else {
        return;
    };
    let Ok(Some(group)) = group_shown(rt, bay, asked.group) else {
        return;
    };
    let to = usize::from(*slot);
    if let (Ok(text), Some(path), Some(goal)) = (
        str::from_utf8(name.items()),
        paths.get(holder),
        paths.get(to),
    ) {
        let text = OneLine(text);
        let path = OneLine(path);
        let goal = OneLine(goal);
        let now = if is_spare_at(&group, holder) {
            "is a spare again"
        } else {
            "holds something else still, and is no spare"
        };
        let _ = eprintln!(rt;
            "ddf: array {text}: slot {to} ({goal}) holds the position now; slot {holder} ({path}) {now}"
        );
    }
}

/// Whether the disk in a slot is a spare.
fn is_spare_at(group: &Group, slot: usize) -> bool {
    for seat in group.seats() {
        if seat.slot == slot {
            return match group.config().members.get(&seat.reference) {
                Some(member) => member.spare.is_spare(),
                None => false,
            };
        }
    }
    false
}
