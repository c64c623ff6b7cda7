//! The group that a disk shows, for a group that is named by its first digits. docs/COMMANDS.md#arguments
use ddf_bay::Bay;
use ddf_bytes::{Guid, NoMemory};
use ddf_copy::{ShowFault, anchor_of, newest};
use std::alloc::Global;

/// The group whose records the newest whole copy of a slot is of.
pub fn group_at<B: Bay>(alloc: Global, bay: &mut B, slot: usize) -> Result<Option<Guid>, NoMemory> {
    if slot >= bay.slots() {
        return Ok(None);
    }
    let Ok(anchor) = anchor_of(bay, slot) else {
        return Ok(None);
    };
    if slot >= bay.slots() {
        return Ok(None);
    }
    match newest(alloc, bay, slot, &anchor) {
        Ok(newest) => Ok(match newest.copy() {
            Some(copy) => Some(copy.header.guid),
            None => None,
        }),
        Err(ShowFault::Disk(_)) => Ok(None),
        Err(ShowFault::Memory) => Err(NoMemory),
    }
}
