//! Disks of a group that must not be written over, and are no source of a read. docs/REFUSALS.md#39-in-full
use crate::adaptec::name_adaptec;
use ddf_arrays_left::group_shown;
use ddf_assembly::Group;
use ddf_bay::Bay;
use ddf_bytes::{Guid, NoMemory};
use ddf_config::Seat;
use ddf_copy::{anchor_of, newest};
use ddf_edge::OneLine;
use ddf_recovery::trusted_seats;

/// Names on standard error each disk of a group that recovery must not write over, and why; and each array that another tool reads
/// otherwise.
pub fn name_strays<R, B: Bay>(
    rt: &R,
    bay: &mut B,
    paths: &[String],
    named: Option<Guid>,
) -> Result<(), NoMemory>
where
    R: Eprint + AllocGlobal,
{
    match group_shown(rt, bay, named)? {
        Some(group) => name_strays_of(rt, bay, paths, &group),
        None => Ok(()),
    }
}

/// Names each disk of this group that recovery must not write over, and why, and each array that another tool reads otherwise.
pub(crate) fn name_strays_of<R, B: Bay>(
    rt: &R,
    bay: &mut B,
    paths: &[String],
    group: &Group,
) -> Result<(), NoMemory>
where
    R: Eprint + AllocGlobal,
{
    name_adaptec(rt, group);
    let trusted = trusted_seats(rt.alloc(), group)?;
    for seat in group.seats() {
        if !has_slot(trusted.as_slice(), seat.slot) {
            let why = reason_of(rt, bay, group, seat.slot);
            tell_stray(rt, paths, seat.slot, why);
        }
    }
    Ok(())
}

/// Whether one of these seats is on a slot.
pub fn has_slot(seats: &[Seat], slot: usize) -> bool {
    seats.iter().any(|seat| seat.slot == slot)
}

fn tell_stray<R: Eprint>(rt: &R, paths: &[String], slot: usize, why: &str) {
    if let Some(path) = paths.get(slot) {
        let path = OneLine(path);
        let _ = eprintln!(rt;
            "ddf: slot {slot} ({path}) must not be written over, and nothing of an array is read from it: {why}"
        );
    }
}

/// Why a disk must not be written over, as far as its newest copy tells.
fn reason_of<R: AllocGlobal, B: Bay>(
    rt: &R,
    bay: &mut B,
    group: &Group,
    slot: usize,
) -> &'static str {
    let unknown = "it doesn't show what the others do";
    if slot >= bay.slots() {
        return unknown;
    }
    let Ok(anchor) = anchor_of(bay, slot) else {
        return unknown;
    };
    if slot >= bay.slots() {
        return unknown;
    }
    let Ok(newest) = newest(rt.alloc(), bay, slot, &anchor) else {
        return unknown;
    };
    match newest.copy() {
        None => unknown,
        Some(copy) if copy.header.guid != group.config().group => {
            "it shows another group, to which it was moved or of which an import was cut short; go on with the import, or take it away"
        }
        Some(copy) if copy.header.sequence >= group.config().sequence => {
            "its records are as new as the others', and say other things; see by examine what it holds, and take it away"
        }
        Some(_) => {
            "its records are older than a crash leaves them (an old image, or written elsewhere), or have the only record of an element; see by examine, and take it away"
        }
    }
}
