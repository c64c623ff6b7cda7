//! The disks as the program gives them to its commands, and how many calls the look for bad block logs takes.
use crate::program::{Seen, Sight};
use anyhow::bail;
use ddf_bay::{Bay, MemoryBay};
use ddf_hidden_logs::Honoured;
use ddf_linux::Turned;
use std::alloc::Global;

/// The disks as a call of the program sees them.
pub fn seen(alloc: Global, disks: MemoryBay, sight: Sight) -> anyhow::Result<Seen> {
    let turned = Turned::new(disks, sight.founds);
    if !sight.by_logs {
        return Ok(Honoured::as_written(alloc, turned));
    }
    match Honoured::new(alloc, turned) {
        Ok(bay) => Ok(bay),
        Err(_) => bail!("memory ran out"),
    }
}

/// The disks below.
pub fn unseen(bay: Seen) -> MemoryBay {
    bay.into_inner().into_inner()
}

/// How many calls are made of disks before any log is looked for: a read of each that has sectors.
pub fn first_looks<B: Bay>(bay: &B) -> u64 {
    let mut count: u64 = 0;
    for slot in 0..bay.slots() {
        if bay.size(slot) > 0 {
            count = count.saturating_add(1);
        }
    }
    count
}

/// How many calls the look for logs made of disks that had been asked so many before they were seen.
pub fn log_looks(bay: &Seen, before: u64) -> u64 {
    let made = bay.inner().inner().calls().saturating_sub(before);
    made.saturating_sub(first_looks(bay))
}
