//! What a `copyback` left that ended since a disk failed, or that was refused where a stopped one may have made its change on some disks.
//! docs/FAILED-DISK.md#while-a-copyback-is-at-work
use crate::going_back::stands_in;
use crate::shown::group_shown;
use crate::unfilled::Fault;
use ddf_assembly::Group;
use ddf_bay::Bay;
use ddf_edge::{LastCall, OneLine};
use ddf_request::named_array;
use ddf_words::{Asked, Command};
use std::str;

/// Where a position is that a `copyback` was to move, as far as the disks tell it.
#[derive(Clone, Copy)]
enum Place {
    /// Each disk that shows its records says that the spare holds it, and the spare is there.
    Spare,
    /// A disk says already that the other one holds it.
    Moved,
    /// It can't be told.
    Unknown,
}

/// A `copyback` that failed: its array, the slot of the spare that held the position, and the slot where it was to go.
#[derive(Clone, Copy)]
struct Copying<'a> {
    name: OneLine<'a>,
    holder: usize,
    to: usize,
}

/// Says on standard error which call of a `copyback` failed, where the position is, and what is to be done. `holder` is the slot of the spare
/// that held it before.
pub(crate) fn tell_uncopied<R, B: Bay>(
    rt: &R,
    bay: &mut B,
    paths: &[String],
    asked: &Asked,
    holder: Option<usize>,
    fault: Fault,
)
where
    R: Eprint + AllocGlobal,
{
    let (Command::Copyback { name, slot }, Some(holder)) = (&asked.command, holder) else {
        return;
    };
    let Ok(text) = str::from_utf8(name.items()) else {
        return;
    };
    let group = match group_shown(rt, bay, asked.group) {
        Ok(group) => group,
        Err(_) => None,
    };
    let copying = Copying {
        name: OneLine(text),
        holder,
        to: usize::from(*slot),
    };
    name_absent(rt, &group);
    match place_in(&group, name.items(), holder) {
        Place::Spare => tell_unmoved(rt, paths, copying, fault),
        Place::Moved => tell_moved(rt, paths, copying, fault.slot),
        Place::Unknown => tell_unknown(rt, copying, fault.slot),
    }
}

/// Where the position is that the spare of a slot held before.
fn place_in(group: &Option<Group>, name: &[u8], holder: usize) -> Place {
    let Some(group) = group else {
        return Place::Unknown;
    };
    match named_array(&group.config().arrays, name) {
        Some((_, array)) if stands_in(group, array, holder) => Place::Spare,
        Some(_) if group.seats().iter().any(|seat| seat.slot == holder) => Place::Moved,
        _ => Place::Unknown,
    }
}

/// Says which call failed where the spare holds the position still.
fn tell_unmoved<R: Eprint>(rt: &R, paths: &[String], copying: Copying<'_>, fault: Fault) {
    let (Some(path), Some(spare)) = (paths.get(fault.slot), paths.get(copying.holder)) else {
        return;
    };
    let path = OneLine(path);
    let slot = fault.slot;
    let Copying { name, holder, to } = copying;
    let _ = match fault.last {
        LastCall::Write if slot == to => eprintln!(rt;
            "ddf: copyback {name}: slot {slot} ({path}), the disk that the position goes to, couldn't be written. Give copyback {name} again with another disk, unless the line below says that this one is well"
        ),
        LastCall::Write => eprintln!(rt;
            "ddf: copyback {name}: the records of slot {slot} ({path}) couldn't be written. Give copyback {name} {to} again; where it ends so too: docs/FAILED-DISK.md, under 'While a copyback is at work'"
        ),
        LastCall::First if slot == to => eprintln!(rt;
            "ddf: copyback {name}: a sync of slot {slot} ({path}), the disk that the position goes to, failed before anything was written. Give copyback {name} {to} again; where it ends so too, with another disk"
        ),
        LastCall::First => eprintln!(rt;
            "ddf: copyback {name}: a read of slot {slot} ({path}), of what no other disk gives, or a sync of it before that, failed. Give copyback {name} {to} again; where it ends so too: docs/FAILED-DISK.md, under 'While a copyback is at work'"
        ),
        LastCall::Read => eprintln!(rt;
            "ddf: copyback {name}: slot {slot} ({path}) has what no other disk gives, and a read of it failed: docs/FAILED-DISK.md, under 'While a copyback is at work'"
        ),
    };
    let spare = OneLine(spare);
    let _ = eprintln!(rt;
        "ddf: copyback {name}: slot {holder} ({spare}) holds the position still, and no block of the array has changed; the next copyback begins anew"
    );
}

/// Says what is to be done where a disk says already that the position has moved.
fn tell_moved<R: Eprint>(rt: &R, paths: &[String], copying: Copying<'_>, slot: usize) {
    let Copying { name, holder, to } = copying;
    if let (Some(path), Some(spare), Some(goal)) = (
        paths.get(slot),
        paths.get(holder),
        paths.get(to),
    ) {
        let path = OneLine(path);
        let spare = OneLine(spare);
        let goal = OneLine(goal);
        let _ = eprintln!(rt;
            "ddf: copyback {name}: a call of slot {slot} ({path}) failed once all was copied: some disks say by now that slot {to} ({goal}) holds the position, others may say still that slot {holder} ({spare}) does. Leave both where they are, and look at show: once it shows each member give assemble, and look at show again once that has ended with status 0. Where it ends so too: docs/FAILED-DISK.md, under 'While a copyback is at work'"
        );
    }
}

/// Says what is to be done where it can't be told which disk holds the position.
fn tell_unknown<R: Eprint>(rt: &R, copying: Copying<'_>, slot: usize) {
    let Copying { name, holder, to } = copying;
    let _ = eprintln!(rt;
        "ddf: copyback {name}: a call of slot {slot} failed, and it can't be told now whether slot {holder} holds the position or slot {to}. Leave both where they are, and look at show; once it shows each member give assemble, and look at show again once that has ended with status 0"
    );
}

/// Says that a member doesn't show itself any more, where one doesn't: the next command goes on without it.
fn name_absent<R: Eprint>(rt: &R, group: &Option<Group>) {
    if let Some(group) = group {
        if !group.absent().is_empty() {
            let _ = eprintln!(rt;
                "ddf: a member of the group is absent now: bring it back before any command that writes, whatever the lines below say: it would go on without that member for good"
            );
        }
    }
}

/// Says on standard error that a `copyback` that was cut short may have made its change on some disks alone, where one was refused that finds
/// none of the spares that it looks for, or its disk in use, and not all disks have the group's last change.
pub fn name_half_moved<R, B: Bay>(rt: &R, bay: &mut B, paths: &[String], asked: &Asked, number: u16)
where
    R: Eprint + AllocGlobal,
{
    let (Command::Copyback { name, .. }, 33 | 38) = (&asked.command, number) else {
        return;
    };
    let (Ok(text), Ok(Some(group))) = (
        str::from_utf8(name.items()),
        group_shown(rt, bay, asked.group),
    ) else {
        return;
    };
    let name = OneLine(text);
    if let Some(slot) = group.lagging().first() {
        if let Some(path) = paths.get(*slot) {
            let path = OneLine(path);
            let _ = eprintln!(rt;
                "ddf: copyback {name}: slot {slot} ({path}) is behind: the last change of the group isn't on each disk, and it may be that of a copyback that was cut short. Leave each disk where it is, a spare too, and look at show: once it shows each member give assemble with all of them, and look at show again once that has ended with status 0"
            );
        }
    }
    if !group.absent().is_empty() {
        let _ = eprintln!(rt;
            "ddf: copyback {name}: a member of the group is absent, and it may be the one that holds the position: bring it back before any command that writes, which would go on without it for good"
        );
    }
}
