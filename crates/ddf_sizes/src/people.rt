//! What somebody at a terminal sees after `show`: the image of each slot, and sizes with units. docs/COMMANDS.md#show
use ddf_assembly::{Group, assemble};
use ddf_bay::Bay;
use ddf_bytes::{Guid, NoMemory};
use ddf_config::array_capacity;
use ddf_edge::{OneLine, Size};
use ddf_name::NameText;
use std::str;

/// Names on standard error the image and the size of each member that has a slot, with the text of its GUID where that is one, as of a
/// controller that puts the serial number of the disk there; and the size of each array.
pub fn name_sizes<R, B: Bay>(
    rt: &R,
    bay: &mut B,
    paths: &[String],
    named: Option<Guid>,
) -> Result<(), NoMemory>
where
    R: Eprint + AllocGlobal,
{
    let Ok(group) = assemble(rt.alloc(), bay, named) else {
        return Ok(());
    };
    name_members(rt, paths, &group);
    for (_, array) in group.config().arrays.iter() {
        let name = NameText(&array.name);
        let size = Size(array_capacity(rt.alloc(), array)?);
        let _ = eprintln!(rt; "ddf: array {name}: {size}");
    }
    Ok(())
}

fn name_members<R: Eprint>(rt: &R, paths: &[String], group: &Group) {
    for seat in group.seats() {
        let slot = seat.slot;
        if let (Some(path), Some(member)) = (
            paths.get(slot),
            group.config().members.get(&seat.reference),
        ) {
            let (path, size) = (OneLine(path), Size(member.size));
            let bytes = member.guid.bytes();
            let _ = match text_of(&bytes) {
                Some(text) => eprintln!(rt; "ddf: slot {slot} is {path}: {size}, {text}"),
                None => eprintln!(rt; "ddf: slot {slot} is {path}: {size}"),
            };
        }
    }
}

/// The text that bytes are, where they are printable ASCII.
fn text_of(bytes: &[u8]) -> Option<&str> {
    if !bytes.iter().all(|byte| matches!(byte, 0x20..=0x7E)) {
        return None;
    }
    match str::from_utf8(bytes) {
        Ok(text) => Some(text.trim()),
        Err(_) => None,
    }
}
