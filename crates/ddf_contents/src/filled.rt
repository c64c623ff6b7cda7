//! Disks that `label` would write over. docs/COMMANDS.md#label
use crate::contents::content_of;
use crate::moved::header_before_end;
use crate::sectors::{sector_of, size_of};
use ddf_bay::Bay;
use ddf_copy::{AnchorFault, anchor_of};
use ddf_edge::OneLine;

/// How many sectors at the end of a disk are looked at: what `label` may write, and what others keep there.
const LAST_SECTORS: u64 = 512;

/// How many sectors at its start are looked at for a partition table or a file system.
const FIRST_SECTORS: u64 = 2048;

/// Names on standard error each blank disk of these slots, or of all where there are none, that isn't empty: a sector among its
/// first or its last ones isn't zeros, or one further from its end is a header. Whether there is any.
pub fn name_filled<R: Eprint, B: Bay>(rt: &R, bay: &mut B, paths: &[String], slots: &[u8]) -> bool {
    let mut any = false;
    for (slot, path) in paths.iter().enumerate() {
        if is_among(slots, slot) && is_filled(bay, slot) {
            any = true;
            tell_filled(rt, bay, slot, path);
        }
    }
    any
}

/// Says that a disk isn't empty, and of what.
fn tell_filled<R: Eprint, B: Bay>(rt: &R, bay: &mut B, slot: usize, path: &str) {
    let path = OneLine(path);
    let _ = match content_of(bay, slot) {
        Some(content) => eprintln!(rt;
            "ddf: slot {slot} ({path}) isn't empty ({content}): label makes it a disk of a new group"
        ),
        None => eprintln!(rt;
            "ddf: slot {slot} ({path}) isn't empty: label makes it a disk of a new group"
        ),
    };
}

/// Whether a slot is among these, or there are none.
fn is_among(slots: &[u8], slot: usize) -> bool {
    slots.is_empty() || slots.iter().any(|other| usize::from(*other) == slot)
}

/// Whether a blank disk isn't empty. One that a read fails on counts as empty: the command tells of it.
fn is_filled<B: Bay>(bay: &mut B, slot: usize) -> bool {
    if !is_blank(bay, slot) {
        return false;
    }
    let size = size_of(bay, slot);
    let last = size.saturating_sub(LAST_SECTORS);
    holds_some(bay, slot, 0, size.min(FIRST_SECTORS))
        || holds_some(bay, slot, last, size)
        || header_before_end(bay, slot).is_some()
}

/// Whether a slot has sectors and no anchor, so that it can be labelled.
fn is_blank<B: Bay>(bay: &mut B, slot: usize) -> bool {
    size_of(bay, slot) > 0
        && slot < bay.slots()
        && matches!(anchor_of(bay, slot), Err(AnchorFault::Blank))
}

/// Whether one of the sectors from one on up to another isn't zeros.
fn holds_some<B: Bay>(bay: &mut B, slot: usize, from: u64, to: u64) -> bool {
    for lba in from..to {
        if is_written(bay, slot, lba) {
            return true;
        }
    }
    false
}

/// Whether a sector can be read and isn't zeros.
fn is_written<B: Bay>(bay: &mut B, slot: usize, lba: u64) -> bool {
    match sector_of(bay, slot, lba) {
        Some(sector) => sector.iter().any(|byte| *byte != 0),
        None => false,
    }
}
