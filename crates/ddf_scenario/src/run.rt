//! Runs of sectors, read and written behind the program's back.
use crate::numbers::{count, number};
use anyhow::bail;
use ddf_bay::{Bay, MemoryBay};
use ddf_bytes::Sector;
use std::alloc::Global;

/// A run of sectors of a slot.
#[derive(Clone, Copy)]
pub struct Run {
    pub slot: usize,
    pub lba: u64,
    pub count: usize,
}

/// The runs of so many sectors at each of these LBAs of each of these slots: lists with commas between.
pub fn runs_of(alloc: Global, slots: &str, lbas: &str, sectors: usize) -> anyhow::Result<Vec<Run>> {
    let mut runs = Vec::new(alloc);
    for slot in slots.split(',') {
        push_runs(&mut runs, count(slot)?, lbas, sectors)?;
    }
    Ok(runs)
}

fn push_runs(runs: &mut Vec<Run>, slot: usize, lbas: &str, count: usize) -> anyhow::Result<()> {
    for lba in lbas.split(',') {
        let lba = number(lba)?;
        runs.push(Run { slot, lba, count })?;
    }
    Ok(())
}

/// What the sectors of a run hold.
pub fn sectors_of(alloc: Global, bay: &mut MemoryBay, run: Run) -> anyhow::Result<Vec<Sector>> {
    if run.count == 0 || run.slot >= bay.slots() || run.lba >= bay.size(run.slot) {
        bail!("there are no such sectors");
    }
    if bay.size(run.slot) - run.lba < run.count as u64 {
        bail!("there are fewer sectors");
    }
    let mut sectors = Vec::from_elem(alloc, [0; 512], run.count)?;
    match bay.read_run(run.slot, run.lba, sectors.as_mut_slice()) {
        Ok(()) => Ok(sectors),
        Err(_) => bail!("a read failed"),
    }
}

/// Writes sectors one behind another, in one call, and doesn't make them sure.
pub fn write_sectors<B: Bay>(
    bay: &mut B,
    slot: usize,
    lba: u64,
    sectors: &[Sector],
) -> anyhow::Result<()> {
    if sectors.is_empty() || slot >= bay.slots() || lba >= bay.size(slot) {
        bail!("there are no such sectors");
    }
    if bay.size(slot) - lba < sectors.len() as u64 {
        bail!("there are fewer sectors");
    }
    match bay.write_run(slot, lba, sectors) {
        Ok(()) => Ok(()),
        Err(_) => bail!("a write failed"),
    }
}

/// Makes sure what was written to a slot.
pub fn sync_slot<B: Bay>(bay: &mut B, slot: usize) -> anyhow::Result<()> {
    if slot >= bay.slots() {
        bail!("there is no such slot");
    }
    match bay.sync(slot) {
        Ok(()) => Ok(()),
        Err(_) => bail!("a sync failed"),
    }
}
