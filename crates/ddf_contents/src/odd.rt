//! Disks whose records this program doesn't read.
use crate::contents::{Content, odd_records_of};
use crate::one_copy::names_one_place;
use crate::sectors::size_of;
use ddf_bay::Bay;
use ddf_copy::{AnchorFault, anchor_of};
use ddf_edge::OneLine;
use ddf_header::HeaderFault;

/// Names on standard error each blank disk that has records of the standard in another place or order, and each with one copy of them.
pub fn name_odd<R: Eprint, B: Bay>(rt: &R, bay: &mut B, paths: &[String]) {
    for (slot, path) in paths.iter().enumerate() {
        if let Some(content) = unread_records_of(bay, slot) {
            let path = OneLine(path);
            let _ = eprintln!(rt; "ddf: slot {slot} ({path}) has {content}");
        }
    }
}

/// The records of a disk, where this program doesn't read them for their place, their order or their number.
fn unread_records_of<B: Bay>(bay: &mut B, slot: usize) -> Option<Content> {
    if size_of(bay, slot) == 0 || slot >= bay.slots() {
        return None;
    }
    match anchor_of(bay, slot) {
        Err(AnchorFault::Blank) => odd_records_of(bay, slot),
        Err(AnchorFault::Damaged(HeaderFault::Place)) if names_one_place(bay, slot) => {
            Some(Content::OneCopy)
        }
        _ => None,
    }
}
