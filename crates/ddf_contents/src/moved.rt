//! Records that aren't at the end of a disk: its image was cut short or grown.
use crate::sectors::size_of;
use ddf_bay::Bay;
use ddf_bytes::{Sector, be32};
use ddf_header::HEADER_SIGNATURE;

/// How many sectors are read at once.
const RUN: usize = 64;

/// How many runs at the end of a disk are looked at: 32 MiB.
const RUNS: u64 = 1024;

/// How far from the end of a disk the first header lies among its last sectors, where there is one.
pub fn header_before_end<B: Bay>(bay: &mut B, slot: usize) -> Option<u64> {
    let size = size_of(bay, slot);
    let first = size / 64;
    let from = first.saturating_sub(RUNS);
    for run in from..first {
        let lba = run.saturating_mul(64);
        if let Some(place) = header_in(bay, slot, lba) {
            return Some(size.saturating_sub(lba).saturating_sub(place));
        }
    }
    None
}

/// Where in a run of sectors the first header lies.
fn header_in<B: Bay>(bay: &mut B, slot: usize, lba: u64) -> Option<u64> {
    if slot >= bay.slots() || lba > bay.size(slot) {
        return None;
    }
    if bay.size(slot) - lba < RUN as u64 {
        return None;
    }
    let mut run = [[0; 512]; RUN];
    match bay.read_run(slot, lba, &mut run) {
        Ok(()) => place_of_header(&run),
        Err(_) => None,
    }
}

fn place_of_header(run: &[Sector]) -> Option<u64> {
    for (place, sector) in run.iter().enumerate() {
        if be32(sector, 0) == HEADER_SIGNATURE {
            return Some(place as u64);
        }
    }
    None
}
