//! A copy as the runs of sectors that are written. docs/FORMAT.md#what-is-written
ghost use Rattle.std.specs.Prelude.{◌≡◌, IfOk, [], ◌∷◌};
ghost use Rattle.ddf_copy.specs.Runs.{AreRunsOf, run_of, runs_at};
ghost use Rattle.ddf_copy.specs.Written.{CanBeCopy};
ghost use Rattle.ddf_header.specs.Geometry.{IsSound};

use crate::copy::DiskCopy;
use crate::raw::{Raw, whole_slots};
use crate::writing::raw_of;
use ddf_bytes::{NoMemory, Sector, Seq};
use ddf_header::{ARRAYS, BAD_BLOCKS, CONTROLLER, DISK_DATA, DISKS, Geometry, Section};
use std::alloc::Global;
use std::slice;

/// A section of a copy as it is written: those of its sectors that are written, one or more.
#[derive(Drop)]
pub struct Run {
    /// How many sectors behind the copy's header it begins.
    pub offset: u32,
    /// Its sectors in order.
    pub sectors: Seq<Sector>,
}

/// The sections that a copy is written as, in the order of the header. The copy is one that can stand on a disk.
pub fn runs_of(alloc: Global, copy: &DiskCopy) -> Result<Seq<Run>, NoMemory>
    requires { CanBeCopy copy.now }
    ensures { IfOk result (AreRunsOf copy.now) }
{
    let raw = raw_of(alloc, copy)?;
    let runs = runs_at(alloc, &copy.header.geometry, raw)?;
    Ok(Seq::new(runs))
}

fn runs_at(alloc: Global, geometry: &Geometry, raw: Raw) -> Result<Vec<Run>, NoMemory>
    requires { IsSound geometry.now }
    ensures { IfOk result (λ runs. runs.items ≡ runs_at geometry.now raw) }
{
    let controller = one_sector(alloc, &raw.controller)?;
    let disk_data = one_sector(alloc, &raw.disk_data)?;
    let mut runs = Vec::with_capacity(alloc, 6)?;
    runs.push(run_of(geometry.section(CONTROLLER), controller))?;
    runs.push(run_of(geometry.section(DISKS), raw.disks))?;
    runs.push(run_of(geometry.section(ARRAYS), raw.arrays))?;
    runs.push(run_of(whole_slots(geometry), raw.records))?;
    runs.push(run_of(geometry.section(DISK_DATA), disk_data))?;
    if !raw.bad_blocks.items().is_empty() {
        runs.push(run_of(geometry.section(BAD_BLOCKS), raw.bad_blocks))?;
    }
    Ok(runs)
}

fn one_sector(alloc: Global, sector: &Sector) -> Result<Seq<Sector>, NoMemory>
    ensures { IfOk result (λ sectors. sectors ≡ sector.now ∷ []) }
{
    let sectors = Vec::from_slice(alloc, slice::from_ref(sector))?;
    Ok(Seq::new(sectors))
}

fn run_of(section: Section, sectors: Seq<Sector>) -> Run
    ensures { result ≡ run_of section sectors }
{
    Run {
        offset: section.offset,
        sectors,
    }
}
