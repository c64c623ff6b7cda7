//! Where a new extent lies on a disk: at the least multiple of its strip where it meets no other, so that the same words make the same array
//! again. docs/GROUPS.md#changes
ghost use Rattle.std.specs.Prelude.{◌≡◌, ℕ, ◌+◌, ◌*◌, ◌<◌, ◌≤◌, ◌^◌, true, false, MatchOption, IfOk};
ghost use Rattle.std.specs.List.{list_any};
ghost use Rattle.ddf_config.specs.Room.{meets, least_start_of, start_on};

use crate::extent::ranges_on;
use crate::{Extent, Member};
use ddf_bytes::NoMemory;
use indexmap::IndexMap;
use std::alloc::Global;

/// The least multiple of `strip` at which `blocks` sectors meet no taken extent (first sector, number of
/// sectors) and end within `size`. None exactly where there is none. A taken extent may reach past `size`.
pub fn least_start(taken: &[(u64, u64)], size: u64, strip: u64, blocks: u64) -> Option<u64>
    requires { 1 ≤ strip }
    // promise:extents
    ensures { result ≡ least_start_of taken.now size strip blocks }
{
    let mut place: u128 = 0;
    while place * u128::from(strip) + u128::from(blocks) <= u128::from(size) {
        let start = (place * u128::from(strip)) as u64;
        match end_of_one_that_meets(taken, start, blocks) {
            None => return Some(start),
            Some(end) => place = strips_up_to(end, strip),
        }
    }
    None
}

/// The end of a taken extent that meets this one. Every later start before that end meets it too.
fn end_of_one_that_meets(taken: &[(u64, u64)], start: u64, blocks: u64) -> Option<u128>
    ensures { MatchOption result
        (list_any (meets start blocks) taken.now ≡ false)
        (λ end. (start < end) × (end ≤ 2 ^ 65) × ((later : ℕ) → start ≤ later → later < end → list_any (meets later blocks) taken.now ≡ true)) }
{
    for extent in taken {
        if do_meet(start, blocks, *extent) {
            return Some(end_of(*extent));
        }
    }
    None
}

fn end_of(extent: (u64, u64)) -> u128
    ensures value { result ≡ extent.0 + extent.1 }
    ensures small { result ≤ 2 ^ 65 }
{
    u128::from(extent.0) + u128::from(extent.1)
}

pub(crate) fn do_meet(start: u64, blocks: u64, extent: (u64, u64)) -> bool
    ensures { result ≡ meets start blocks extent }
{
    let end = u128::from(start) + u128::from(blocks);
    u128::from(start.max(extent.0)) < end.min(end_of(extent))
}

/// The number of whole strips that reach a sector.
fn strips_up_to(sector: u128, strip: u64) -> u128
    requires strip { 1 ≤ strip }
    requires sector { sector ≤ 2 ^ 65 }
    ensures reached { sector ≤ result * strip }
    ensures least { result * strip < sector + strip }
{
    sector.div_ceil(u128::from(strip))
}

/// The least start of a new extent on a member's disk, a multiple of `strip` at which `blocks` sectors end
/// within the configured size and meet none of these extents. None where there is none, or no such member.
///
/// # Errors
/// Memory ran out.
pub fn start_on(
    alloc: Global,
    members: &IndexMap<u32, Member>,
    all: &[Extent],
    strip: u64,
    blocks: u64,
    reference: u32,
) -> Result<Option<u64>, NoMemory>
    requires { 1 ≤ strip }
    ensures { IfOk result (λ start. start ≡ start_on members.now.entries all.now strip blocks reference) }
{
    match members.get(&reference) {
        Some(member) => {
            let taken = ranges_on(alloc, all, reference)?;
            Ok(least_start(taken.as_slice(), member.size, strip, blocks))
        }
        None => Ok(None),
    }
}
