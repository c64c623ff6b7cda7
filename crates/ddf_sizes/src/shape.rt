//! Why the numbers of a new array make none. docs/REFUSALS.md#19-shape
use crate::numbers::strip_of;
use ddf_words::{CreateElement, Creation};

/// Says on standard error which number of a new array is wrong, and what it may be, where one alone tells.
pub fn name_shape<R: Eprint>(rt: &R, creation: &Creation) {
    let elements = creation.elements.items();
    if is_single(creation) != (elements.len() == 1) {
        let count = elements.len();
        let _ = eprintln!(rt;
            "ddf: SECONDARY is single for one element alone, and {count} are given"
        );
        return;
    }
    for element in elements {
        if name_element(rt, creation, element) {
            return;
        }
    }
    let _ = eprintln!(rt;
        "ddf: the elements don't go together (take equally many disks and blocks in each), one disk is in two of them, or an element has more disks than a record lists"
    );
}

fn is_single(creation: &Creation) -> bool {
    creation.secondary.is_none()
}

/// Says what is wrong with an element by itself. Whether anything is.
fn name_element<R: Eprint>(rt: &R, creation: &Creation, element: &CreateElement) -> bool {
    let slots = element.slots.items();
    let count = slots.len();
    let blocks = element.blocks;
    let strip = strip_of(creation.code);
    if let Some(slot) = twice_in(slots) {
        let _ = eprintln!(rt; "ddf: slot {slot} is named twice in one element");
        return true;
    }
    let least = least_disks(creation.level);
    if count < least || (creation.level == 0x0F && count > 1) {
        let _ = eprintln!(rt;
            "ddf: an element has {count} disks: raid1, raid4 and raid5 want 2 at least, raid1e wants 3, jbod wants 1"
        );
        return true;
    }
    let strips = least_strips(creation.level);
    let wanted = strip.saturating_mul(strips);
    if blocks < wanted {
        let strips = if strips == 1 {
            "one strip"
        } else {
            "two strips"
        };
        let _ = eprintln!(rt;
            "ddf: BLOCKS are {blocks}, less than the {wanted} of {strips}: take {wanted} or more, or a smaller CODE"
        );
        return true;
    }
    false
}

/// The first slot that is there twice.
fn twice_in(slots: &[u8]) -> Option<u8> {
    for (place, slot) in slots.iter().enumerate() {
        if slots.iter().take(place).any(|other| other == slot) {
            return Some(*slot);
        }
    }
    None
}

/// The least number of disks of a level.
fn least_disks(level: u8) -> usize {
    match level {
        0x01 | 0x04 | 0x05 => 2,
        0x11 => 3,
        _ => 1,
    }
}

/// The least number of strips that the blocks of a disk make, where the level cuts them into strips.
fn least_strips(level: u8) -> u64 {
    match level {
        0x00 | 0x04 | 0x05 => 1,
        0x11 => 2,
        _ => 0,
    }
}
