//! Extents in the order of the disks that they lie on: those of one disk are found by halving, without a look at all others.
//! docs/DECISIONS.md#configurations-and-their-changes
ghost use Rattle.std.specs.Prelude.{◌≡◌, IfOk};
ghost use Rattle.ddf_config.specs.Extents.{AreByDisk, RiseByDisk, extents, extents_on};

use crate::extent::extents;
use crate::{Array, Extent};
use ddf_bytes::{Guid, NoMemory};
use indexmap::IndexMap;
use std::alloc::Global;
use std::marker::Model;

/// The extents of arrays, of which those on one disk are looked up. Contracts see all of them, in table order.
#[derive(Drop)]
pub struct ExtentsByDisk {
    all: Vec<Extent>,
    sorted: Vec<Extent>,
}

impl Model for ExtentsByDisk {
    ghost use Rattle.std.specs.Prelude.{List};
    ghost use Rattle.ddf_config.specs.declared.extent.Extent.{Extent};
    ghost use Rattle.ddf_config.specs.Extents.{AreByDisk};

    ghost Value = { List Extent };

    ghost view = { λ extents. extents.all.items };

    ghost invariant = { λ extents. AreByDisk extents.all.items extents.sorted.items };
}

impl ExtentsByDisk {
    /// The extents of all arrays.
    ///
    /// # Errors
    /// Memory ran out.
    pub fn new(alloc: Global, arrays: &IndexMap<Guid, Array>) -> Result<ExtentsByDisk, NoMemory>
        ensures { IfOk result (λ all. all ≡ extents arrays.now.entries) }
    {
        let all = extents(alloc, arrays)?;
        let sorted = sorted_by_disk(alloc, all.as_slice())?;
        Ok(ExtentsByDisk { all, sorted })
    }

    /// Those on one disk.
    pub fn on_disk(&self, reference: u32) -> &[Extent]
        ensures { result.now ≡ extents_on reference self.now }
    {
        run_on(self.sorted.as_slice(), reference)
    }
}

/// Extents in the order of their disks. Those on one disk keep their order.
fn sorted_by_disk(alloc: Global, all: &[Extent]) -> Result<Vec<Extent>, NoMemory>
    ensures { IfOk result (λ sorted. AreByDisk all.now sorted.items) }
{
    let mut sorted = Vec::from_slice(alloc, all)?;
    sorted.sort_by_key(|one| one.reference)?;
    Ok(sorted)
}

/// Of extents in the order of their disks those on one disk.
fn run_on(sorted: &[Extent], reference: u32) -> &[Extent]
    requires { RiseByDisk sorted.now }
    ensures { result.now ≡ extents_on reference sorted.now }
{
    let first = sorted.partition_point(|one| one.reference < reference);
    let rest = &sorted[first..];
    let count = rest.partition_point(|one| one.reference <= reference);
    &rest[..count]
}
