//! Sectors of a disk as they are looked at before a command.
use ddf_bay::Bay;
use ddf_bytes::Sector;

/// A sector of a slot, where there is one that can be read.
pub fn sector_of<B: Bay>(bay: &mut B, slot: usize, lba: u64) -> Option<Sector> {
    if slot >= bay.slots() || lba >= bay.size(slot) {
        return None;
    }
    let mut sector = [0; 512];
    match bay.read(slot, lba, &mut sector) {
        Ok(()) => Some(sector),
        Err(_) => None,
    }
}

/// The size of a slot, 0 where there is no such slot.
pub fn size_of<B: Bay>(bay: &B, slot: usize) -> u64 {
    if slot < bay.slots() {
        bay.size(slot)
    } else {
        0
    }
}

/// Whether a sector has these bytes at a place.
pub fn has_at(sector: &Sector, place: usize, bytes: &[u8]) -> bool {
    match sector.get(place..) {
        Some(rest) => rest.starts_with(bytes),
        None => false,
    }
}
