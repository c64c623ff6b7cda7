//! Disks with one copy of their records, as older mdadm wrote them. docs/RESCUE.md#disks-of-controllers
use crate::sectors::{sector_of, size_of};
use ddf_bay::Bay;
use ddf_bytes::be64;
use ddf_header::layout::{PRIMARY_LBA_AT, SECONDARY_LBA_AT};

/// What is no place.
const NOWHERE: u64 = u64::MAX;

/// Whether the last sector of a slot names a place for a primary header, and none for a secondary one.
pub fn names_one_place<B: Bay>(bay: &mut B, slot: usize) -> bool {
    let last = size_of(bay, slot).saturating_sub(1);
    match sector_of(bay, slot, last) {
        Some(sector) => {
            be64(&sector, PRIMARY_LBA_AT) != NOWHERE && be64(&sector, SECONDARY_LBA_AT) == NOWHERE
        }
        None => false,
    }
}
