//! Which arrays are served: those of which every number makes sense, and whose extents have their sectors alone. docs/GROUPS.md#arrays
ghost use Rattle.std.specs.Prelude.{◌≡◌, IfOk, nat_le, count_by};
ghost use Rattle.std.specs.List.{list_all};
ghost use Rattle.ddf_config.specs.Served.{meets_extent, lies_well, is_served};

use crate::extent::array_extents;
use crate::room::do_meet;
use crate::shape::{has_shapes, has_tiers};
use crate::{Array, Extent, ExtentsByDisk, Member};
use ddf_bytes::NoMemory;
use indexmap::IndexMap;
use std::alloc::Global;

fn meets_extent(one: &Extent, other: &Extent) -> bool
    ensures { result ≡ meets_extent one.now other.now }
{
    one.reference == other.reference && do_meet(one.start, one.blocks, (other.start, other.blocks))
}

fn meets_one_of(some: &[Extent], one: &Extent) -> bool
    ensures { result ≡ nat_le (count_by (meets_extent one.now) some.now) 1 }
{
    let met = some
        .iter()
        .filter(|other| meets_extent(one, *other))
        .count();
    met <= 1
}

/// Whether an extent meets at most one of these. It meets none on another disk.
fn meets_one(all: &ExtentsByDisk, one: &Extent) -> bool
    ensures { result ≡ nat_le (count_by (meets_extent one.now) all.now) 1 }
{
    meets_one_of(all.on_disk(one.reference), one)
}

fn lies_well(members: &IndexMap<u32, Member>, all: &ExtentsByDisk, one: &Extent) -> bool
    ensures { result ≡ lies_well members.now.entries all.now one.now }
{
    match members.get(&one.reference) {
        Some(member) => {
            let end = u128::from(one.start) + u128::from(one.blocks);
            end <= u128::from(member.size) && meets_one(all, one)
        }
        None => true,
    }
}

fn all_lie_well(members: &IndexMap<u32, Member>, all: &ExtentsByDisk, own: &[Extent]) -> bool
    ensures { result ≡ list_all (lies_well members.now.entries all.now) own.now }
{
    own.iter().all(|one| lies_well(members, all, one))
}

/// Whether an array is served: its elements have shapes and make an array together, and each of its extents
/// ends within its disk's size and meets no other. `all` are the extents of the configuration. An unknown
/// element doesn't count. Where the disks keep their headers and workspace isn't asked here.
///
/// # Errors
/// Memory ran out.
pub fn is_served(
    alloc: Global,
    members: &IndexMap<u32, Member>,
    all: &ExtentsByDisk,
    array: &Array,
) -> Result<bool, NoMemory>
    ensures { IfOk result (λ served. served ≡ is_served members.now.entries all.now array.now) }
{
    let own = array_extents(alloc, array)?;
    let tiers = has_tiers(alloc, array)?;
    Ok(has_shapes(array) && tiers && all_lie_well(members, all, own.as_slice()))
}
