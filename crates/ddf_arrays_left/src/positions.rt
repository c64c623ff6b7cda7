//! What the positions of an array tell: whether it keeps parity, whether it lacks a disk, and which disk is being filled.
use ddf_assembly::Group;
use ddf_config::{Array, Config, Position, is_current, slot_of};

/// Whether an element of an array keeps parity.
pub fn keeps_parity(array: &Array) -> bool {
    array
        .elements
        .items()
        .iter()
        .flatten()
        .any(|element| matches!(element.level, 0x04 | 0x05))
}

/// Whether a position of an array is out of sync, or its disk is lost.
pub fn lacks_one(config: &Config, array: &Array) -> bool {
    for element in array.elements.items().iter().flatten() {
        for position in element.positions.as_slice() {
            if !position.synced || !is_current(&config.members, position.reference) {
                return true;
            }
        }
    }
    false
}

/// Whether a position is out of sync, and its disk isn't lost: a rebuild has begun to fill it, and hasn't ended.
pub fn is_filled(config: &Config, position: &Position) -> bool {
    !position.synced && is_current(&config.members, position.reference)
}

/// The slot of the first disk of an array that a rebuild has begun to fill. 64, which is no slot, where it isn't there.
pub fn slot_filled(group: &Group, array: &Array) -> Option<usize> {
    for element in array.elements.items().iter().flatten() {
        for position in element.positions.as_slice() {
            if is_filled(group.config(), position) {
                return Some(slot_of(group.seats(), position.reference));
            }
        }
    }
    None
}
