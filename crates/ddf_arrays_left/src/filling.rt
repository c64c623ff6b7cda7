//! Disks that a rebuild has begun to fill and that don't count yet: how far, and how it goes on. docs/NEW-DISK.md#cut-short
use crate::positions::is_filled;
use ddf_assembly::Group;
use ddf_bytes::Hex32;
use ddf_config::{Array, ElementPlan, Position, element_shape, slot_of};
use ddf_edge::OneLine;
use ddf_name::NameText;

/// Names on standard error each disk that a rebuild has begun to fill and that doesn't count yet, how far it is, and how it goes on.
pub(crate) fn name_filling<R: Eprint>(rt: &R, paths: &[String], group: &Group) {
    for (_, array) in &group.config().arrays {
        let elements = array.elements.items();
        for element in elements.iter().flatten() {
            name_in_element(rt, paths, group, array, element);
        }
    }
}

/// Names each disk of an element that is being filled.
fn name_in_element<R: Eprint>(
    rt: &R,
    paths: &[String],
    group: &Group,
    array: &Array,
    element: &ElementPlan,
) {
    let Some(rows) = rows_of(array, element) else {
        return;
    };
    for position in element.positions.as_slice() {
        if is_filled(group.config(), position) {
            tell_filling(rt, paths, group, array, position, rows);
        }
    }
}

/// How many rows a rebuild of a position of an element fills, as its notes count them. None where the element's numbers make no shape.
fn rows_of(array: &Array, element: &ElementPlan) -> Option<u64> {
    let shape = element_shape(array.elements.items().len(), element)?;
    let height = shape.height();
    Some(shape.depth().saturating_add(height - 1) / height)
}

/// Says that the disk of a position is being filled.
fn tell_filling<R: Eprint>(
    rt: &R,
    paths: &[String],
    group: &Group,
    array: &Array,
    position: &Position,
    rows: u64,
) {
    let name = NameText(&array.name);
    let reference = Hex32(position.reference);
    let row = position.row;
    let slot = slot_of(group.seats(), position.reference);
    let _ = match paths.get(slot) {
        Some(path) => {
            let path = OneLine(path);
            eprintln!(rt;
                "ddf: array {name}: slot {slot} ({path}), member {reference}, is being filled and doesn't count yet: {row} of {rows} rows are noted; rebuild {name} goes on"
            )
        }
        None => eprintln!(rt;
            "ddf: array {name}: member {reference}, which is absent, was being filled: {row} of {rows} rows are noted; name its image, and rebuild {name} goes on"
        ),
    };
}
