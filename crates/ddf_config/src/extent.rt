//! The extents of arrays: the sectors of a disk that a position has.
ghost use Rattle.std.specs.Prelude.{◌≡◌, ◌++◌, map, IfOk, OnOk};
ghost use Rattle.std.specs.List.{flat_map};
ghost use Rattle.ddf_config.specs.Extents.{extent, part_extents, array_extents, extents, extents_on, ranges};

use crate::{Array, ElementPlan, Position};
use ddf_bytes::{Guid, NoMemory};
use indexmap::IndexMap;
use std::alloc::Global;

/// The sectors of a disk that a position of an array has.
#[derive(Clone, Copy, Default, PartialEq, Eq)]
pub struct Extent {
    /// The reference of the disk.
    pub reference: u32,
    /// The LBA of the first sector.
    pub start: u64,
    /// The number of sectors.
    pub blocks: u64,
}

/// The extents of all arrays, in table order.
///
/// # Errors
/// Memory ran out.
pub fn extents(alloc: Global, arrays: &IndexMap<Guid, Array>) -> Result<Vec<Extent>, NoMemory>
    ensures { IfOk result (λ all. all.items ≡ extents arrays.now.entries) }
{
    let mut all = Vec::new(alloc);
    for (_guid, array) in arrays {
        push_parts_extents(&mut all, array.elements.items())?;
    }
    Ok(all)
}

/// The extents of an array, by element and position.
///
/// # Errors
/// Memory ran out.
pub fn array_extents(alloc: Global, array: &Array) -> Result<Vec<Extent>, NoMemory>
    ensures { IfOk result (λ all. all.items ≡ array_extents array.now) }
{
    let mut all = Vec::new(alloc);
    push_parts_extents(&mut all, array.elements.items())?;
    Ok(all)
}

fn push_parts_extents(all: &mut Vec<Extent>, parts: &[Option<ElementPlan>]) -> Result<(), NoMemory>
    ensures { OnOk result (all.new.items ≡ all.old.items ++ flat_map part_extents parts.now) }
{
    for part in parts {
        push_part_extents(all, part)?;
    }
    Ok(())
}

fn push_part_extents(all: &mut Vec<Extent>, part: &Option<ElementPlan>) -> Result<(), NoMemory>
    ensures { OnOk result (all.new.items ≡ all.old.items ++ part_extents part.now) }
{
    match part {
        Some(element) => push_extents(all, element.blocks, element.positions.as_slice()),
        None => Ok(()),
    }
}

fn push_extents(all: &mut Vec<Extent>, blocks: u64, positions: &[Position]) -> Result<(), NoMemory>
    ensures { OnOk result (all.new.items ≡ all.old.items ++ map (extent blocks) positions.now) }
{
    for position in positions {
        all.push(Extent {
            reference: position.reference,
            start: position.start,
            blocks,
        })?;
    }
    Ok(())
}

/// Of these extents those on one disk, as pairs (first sector, number of sectors).
///
/// # Errors
/// Memory ran out.
pub fn ranges_on(alloc: Global, all: &[Extent], reference: u32) -> Result<Vec<(u64, u64)>, NoMemory>
    ensures { IfOk result (λ taken. taken.items ≡ ranges (extents_on reference all.now)) }
{
    let mut taken = Vec::new(alloc);
    for extent in all {
        if extent.reference == reference {
            taken.push((extent.start, extent.blocks))?;
        }
    }
    Ok(taken)
}
