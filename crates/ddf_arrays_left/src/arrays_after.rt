//! What a change makes of the arrays: which are altered, and which lie on its disks. docs/COMMANDS.md#what-is-told-on-standard-error
use ddf_assembly::Group;
use ddf_bytes::NoMemory;
use ddf_config::{Array, Config, is_within};
use ddf_recovery::loss;
use ddf_text::group_text;

/// Names each array whose state another configuration alters, as it is then, and each other one that lies on these disks.
pub fn name_arrays_after<R>(
    rt: &R,
    group: &Group,
    before: &Config,
    after: &Config,
    lost: &[u32],
) -> Result<(), NoMemory>
where
    R: Eprint + AllocGlobal,
{
    let old = group_text(rt.alloc(), before, group.seats())?;
    let new = group_text(rt.alloc(), after, group.seats())?;
    let old_lines = old
        .as_str()
        .lines()
        .filter(|line| line.starts_with("array "));
    let new_lines = new
        .as_str()
        .lines()
        .filter(|line| line.starts_with("array "));
    for ((_, array), (was, is)) in before.arrays.iter().zip(old_lines.zip(new_lines)) {
        if was != is {
            let _ = eprintln!(rt; "ddf: after that: {is}");
        } else if lies_on(array, lost) {
            let _ = eprintln!(rt; "ddf: after that, without a disk of it: {is}");
        }
    }
    Ok(())
}

/// Whether an array has a position on one of these disks.
pub fn lies_on(array: &Array, references: &[u32]) -> bool {
    for element in array.elements.items().iter().flatten() {
        for position in element.positions.as_slice() {
            if references.contains(&position.reference) {
                return true;
            }
        }
    }
    false
}

/// The name of the first array that is failed without the disks that are away, where one is. A disk that the group has lost may be
/// all that has some of its blocks: also one in whose place another was filled.
pub fn failed_array<R: AllocGlobal>(rt: &R, group: &Group) -> Result<Option<[u8; 16]>, NoMemory> {
    match loss(rt.alloc(), group)? {
        Some(after) => Ok(failed_in(&after)),
        None => Ok(failed_in(group.config())),
    }
}

fn failed_in(config: &Config) -> Option<[u8; 16]> {
    for (_, array) in &config.arrays {
        if !is_within(&config.members, array) {
            return Some(array.name);
        }
    }
    None
}
