//! Members that a command over a group would lose, and disks that show none. A disk that is lost for want of a word is lost for good.
//! docs/STOPS.md#a-disk-wasnt-named
use crate::silent::{Silence, silence_alone, silence_of};
use crate::strays::name_strays_of;
use ddf_arrays_left::{failed_array, group_shown, name_arrays_after};
use ddf_assembly::{Assembly, Group, assemble};
use ddf_bay::Bay;
use ddf_bytes::{Guid, Hex32, NoMemory};
use ddf_edge::OneLine;
use ddf_recovery::loss;

/// Names on standard error each absent member of the group that a command is over, which the command would lose; each slot that
/// shows no group, and may be such a member's; and each array that is degraded or fails by the loss. Whether there is any.
pub fn name_losses<R, B: Bay>(
    rt: &R,
    bay: &mut B,
    paths: &[String],
    named: Option<Guid>,
) -> Result<bool, NoMemory>
where
    R: Eprint + AllocGlobal,
{
    match group_shown(rt, bay, named)? {
        Some(group) => name_losses_of(rt, bay, paths, &group),
        None => Ok(false),
    }
}

/// Names each absent member of a group, each slot that may be such a member's, and each array that is degraded or fails by the
/// loss. Whether there is any.
fn name_losses_of<R, B: Bay>(
    rt: &R,
    bay: &mut B,
    paths: &[String],
    group: &Group,
) -> Result<bool, NoMemory>
where
    R: Eprint + AllocGlobal,
{
    let silent = silent_slots(rt, bay, paths, group)?;
    match loss(rt.alloc(), group)? {
        Some(after) => {
            name_absent(rt, group.absent(), are_all_dropped(&silent));
            name_silent(rt, paths, &silent);
            name_arrays_after(rt, group, group.config(), &after, group.absent())?;
            Ok(true)
        }
        None => {
            name_dropped(rt, paths, &silent);
            Ok(false)
        }
    }
}

/// Names on standard error each slot that shows no group, where a command that only looks misses a member, and each that is the
/// disk of a member that the group lists as missing; then what `name_strays` does. The group is assembled once for both.
pub fn name_away<R, B: Bay>(
    rt: &R,
    bay: &mut B,
    paths: &[String],
    named: Option<Guid>,
) -> Result<(), NoMemory>
where
    R: Eprint + AllocGlobal,
{
    match assemble(rt.alloc(), bay, named) {
        Ok(group) => {
            name_away_from(rt, bay, paths, &group)?;
            name_strays_of(rt, bay, paths, &group)
        }
        Err(Assembly::Memory) => Err(NoMemory),
        Err(Assembly::NoGroup) => name_all_silent(rt, bay, paths),
        Err(_) => Ok(()),
    }
}

/// Names each slot that shows no group, where a member of this one is absent, and each that is the disk of a member that it lists
/// as missing.
fn name_away_from<R, B: Bay>(
    rt: &R,
    bay: &mut B,
    paths: &[String],
    group: &Group,
) -> Result<(), NoMemory>
where
    R: Eprint + AllocGlobal,
{
    let silent = silent_slots(rt, bay, paths, group)?;
    if group.absent().is_empty() {
        name_dropped(rt, paths, &silent);
    } else {
        name_silent(rt, paths, &silent);
    }
    Ok(())
}

/// Names each slot that shows no group, where none does.
fn name_all_silent<R, B: Bay>(rt: &R, bay: &mut B, paths: &[String]) -> Result<(), NoMemory>
where
    R: Eprint + AllocGlobal,
{
    for (slot, path) in paths.iter().enumerate() {
        if let Some(silence) = silence_alone(rt.alloc(), bay, slot)? {
            tell_silent(rt, slot, path, &silence);
        }
    }
    Ok(())
}

/// The slots that may be an absent member's, and why they don't show it.
fn silent_slots<R, B: Bay>(
    rt: &R,
    bay: &mut B,
    paths: &[String],
    group: &Group,
) -> Result<Vec<(usize, Silence)>, NoMemory>
where
    R: AllocGlobal,
{
    let failed = failed_array(rt, group)?;
    let mut silent = Vec::new(rt.alloc());
    for slot in 0..paths.len() {
        if let Some(silence) = silence_of(rt.alloc(), bay, slot, group)? {
            silent.push((slot, silence.beside(&failed)))?;
        }
    }
    Ok(silent)
}

/// Whether each slot that shows no member is the disk of one that the group lists as missing.
fn are_all_dropped(silent: &[(usize, Silence)]) -> bool {
    silent.iter().all(|(_, silence)| silence.is_dropped())
}

/// Names each absent member, and that its image wasn't named where every image shows a group.
fn name_absent<R: Eprint>(rt: &R, absent: &[u32], all_show: bool) {
    let why = if all_show {
        "no image of it was named; to keep it, name its image too"
    } else {
        "no image shows it"
    };
    for reference in absent {
        let reference = Hex32(*reference);
        let _ = eprintln!(rt;
            "ddf: member {reference} is absent, and the group goes on without it for good: {why}"
        );
    }
}

/// Names each slot that may be an absent member's.
fn name_silent<R: Eprint>(rt: &R, paths: &[String], silent: &[(usize, Silence)]) {
    for (slot, silence) in silent {
        if let Some(path) = paths.get(*slot) {
            tell_silent(rt, *slot, path, silence);
        }
    }
}

/// Names each slot that is the disk of a member that the group lists as missing.
fn name_dropped<R: Eprint>(rt: &R, paths: &[String], silent: &[(usize, Silence)]) {
    for (slot, silence) in silent {
        if let Some(path) = paths.get(*slot) {
            if silence.is_dropped() {
                tell_silent(rt, *slot, path, silence);
            }
        }
    }
}

fn tell_silent<R: Eprint>(rt: &R, slot: usize, path: &str, silence: &Silence) {
    let path = OneLine(path);
    let _ = eprintln!(rt; "ddf: slot {slot} ({path}) {silence}");
}
