//! The spares of a group where none has room for a rebuild: how much each has, and why one isn't taken at all. docs/COMMANDS.md#rebuild
use crate::numbers::free_on;
use ddf_assembly::{Group, assemble};
use ddf_bay::Bay;
use ddf_bytes::NoMemory;
use ddf_config::{Array, Config, ElementPlan, Seat, is_disputed};
use ddf_edge::OneLine;
use ddf_header::Revision;
use ddf_request::named_array;
use ddf_words::Asked;

/// Names the free run of each spare, and of one that the array isn't put on why.
pub(crate) fn name_spares<R, B: Bay>(
    rt: &R,
    bay: &mut B,
    paths: &[String],
    asked: &Asked,
    name: &[u8],
) -> Result<(), NoMemory>
where
    R: Eprint + AllocGlobal,
{
    let Ok(group) = assemble(rt.alloc(), bay, asked.group) else {
        return Ok(());
    };
    let Some((_, array)) = named_array(&group.config().arrays, name) else {
        return Ok(());
    };
    for seat in group.seats() {
        if is_spare(group.config(), seat) {
            name_spare(rt, paths, &group, seat, array)?;
        }
    }
    Ok(())
}

fn name_spare<R>(
    rt: &R,
    paths: &[String],
    group: &Group,
    seat: &Seat,
    array: &Array,
) -> Result<(), NoMemory>
where
    R: Eprint + AllocGlobal,
{
    let Some(path) = paths.get(seat.slot) else {
        return Ok(());
    };
    let path = OneLine(path);
    let slot = seat.slot;
    let _ = match obstacle(group, seat, array) {
        Some(why) => eprintln!(rt; "ddf: slot {slot} ({path}), a spare, isn't taken: {why}"),
        None => {
            let free = free_on(rt, group, slot, 1)?;
            eprintln!(rt;
                "ddf: slot {slot} ({path}), a spare: its largest free run has {free} blocks"
            )
        }
    };
    Ok(())
}

fn is_spare(config: &Config, seat: &Seat) -> bool {
    match config.members.get(&seat.reference) {
        Some(member) => member.spare.is_spare(),
        None => false,
    }
}

/// Why the disk of a seat isn't taken for an array, whatever room it has.
fn obstacle(group: &Group, seat: &Seat, array: &Array) -> Option<&'static str> {
    let elements = array.elements.items();
    if elements
        .iter()
        .flatten()
        .any(|element| lies_on(element, seat.reference))
    {
        Some("the array lies on it")
    } else if is_for_linux(group, seat)
        && elements.iter().flatten().any(|element| is_misread(element))
    {
        Some("Linux reads it, and takes the array for another layout")
    } else {
        None
    }
}

fn lies_on(element: &ElementPlan, reference: u32) -> bool {
    element
        .positions
        .as_slice()
        .iter()
        .any(|position| position.reference == reference)
}

/// Whether Linux takes an element for another layout.
fn is_misread(element: &ElementPlan) -> bool {
    is_disputed(element.level, element.qualifier)
}

/// Whether Linux takes the disk of a seat for its own, by the revision of its records.
fn is_for_linux(group: &Group, seat: &Seat) -> bool {
    match group.newest().get(seat.slot) {
        Some(Some(newest)) => match newest.copy() {
            Some(copy) => matches!(copy.header.revision, Revision::R100 | Revision::R120),
            None => false,
        },
        _ => false,
    }
}
