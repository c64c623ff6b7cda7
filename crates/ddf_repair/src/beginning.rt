//! How the rebuild of an array begins and ends.
ghost use Rattle.std.specs.Prelude.{◌≡◌, ◌≤◌, ◌^◌, ◌++◌, length, Some, IfOk};
ghost use Rattle.std.specs.Map.{lookup};
ghost use Rattle.ddf_config.specs.declared.array.Array as arrays;
ghost use Rattle.ddf_config.specs.Extents.{extents};
ghost use Rattle.ddf_config.specs.Members.{same_guid};
ghost use Rattle.ddf_plan.specs.declared.change.Change.TheVariants.{Finish};
ghost use Rattle.ddf_plan.specs.CreateRefusal.{references};
ghost use Rattle.ddf_repair.specs.First.{first_out};
ghost use Rattle.ddf_repair.specs.Spares.{spares_for};
ghost use Rattle.ddf_repair.specs.Begin.{begin_change, onto_one, onto_any, begun_at, begun_in, begun, IsBegun};

use crate::first::{Out, Target, first_out};
use crate::spares::{first_extent, most_of, spares_for};
use ddf_bytes::{Guid, NoMemory};
use ddf_config::{Array, Config, Extent, Member, Seat, extents, is_current};
use ddf_plan::{Change, references};
use indexmap::IndexMap;
use std::alloc::Global;

/// How the rebuild of an array begins.
#[derive(Drop)]
pub enum Begun {
    /// Every position is in sync.
    Nothing,
    /// The position gets a spare, by this change.
    Fresh(Target, Change),
    /// The position is rebuilt on the disk that it has.
    Again(Target),
}

/// Why a rebuild can't begin.
#[derive(Clone, Copy, PartialEq, Eq)]
pub enum RebuildFault {
    /// No spare that is here is for the array.
    NoSpare,
    /// None of them has room for so many blocks.
    Small {
        /// The blocks that are needed.
        needed: u64,
        /// The most for which one has room.
        found: u64,
    },
    /// Memory ran out.
    Memory,
}

impl From<NoMemory> for RebuildFault {
    ghost use Rattle.ddf_repair.specs.declared.beginning.RebuildFault.TheVariants.{Memory};

    ghost from_gives = { λ _ fault. fault ≡ Memory };

    fn from(_error: NoMemory) -> RebuildFault {
        RebuildFault::Memory
    }
}

/// The change that puts a spare in the place of a position's disk.
fn begin_change(guid: &Guid, out: Out, found: Extent) -> Change
    ensures { result ≡ begin_change guid.now out found }
{
    Change::Begin {
        array: *guid,
        element: out.target.element,
        position: out.target.position,
        reference: found.reference,
        start: found.start,
    }
}

fn onto_one(
    alloc: Global,
    members: &IndexMap<u32, Member>,
    all: &[Extent],
    guid: &Guid,
    seats: &[Seat],
    out: Out,
    spares: &[u32],
) -> Result<Begun, RebuildFault>
    requires { 1 ≤ out.strip }
    ensures { IsBegun (onto_one members.now.entries all.now guid.now seats.now out spares.now) result }
{
    let found = first_extent(alloc, members, all, seats, out.strip, out.blocks, spares)?;
    match found {
        Some(extent) => Ok(Begun::Fresh(out.target, begin_change(guid, out, extent))),
        None => {
            let most = most_of(alloc, members, all, seats, out.strip, spares)?;
            Err(RebuildFault::Small {
                needed: out.blocks,
                found: most,
            })
        }
    }
}

fn onto_some(
    alloc: Global,
    members: &IndexMap<u32, Member>,
    arrays: &IndexMap<Guid, Array>,
    guid: &Guid,
    seats: &[Seat],
    out: Out,
    spares: &[u32],
) -> Result<Begun, RebuildFault>
    requires { 1 ≤ out.strip }
    ensures { IsBegun (onto_one members.now.entries (extents arrays.now.entries) guid.now seats.now out spares.now) result }
{
    let all = extents(alloc, arrays)?;
    onto_one(alloc, members, all.as_slice(), guid, seats, out, spares)
}

fn onto_any(
    alloc: Global,
    config: &Config,
    guid: &Guid,
    seats: &[Seat],
    out: Out,
    spares: &[u32],
) -> Result<Begun, RebuildFault>
    requires { 1 ≤ out.strip }
    ensures { IsBegun (onto_any config.now guid.now seats.now out spares.now) result }
{
    if spares.is_empty() {
        return Err(RebuildFault::NoSpare);
    }
    onto_some(
        alloc,
        &config.members,
        &config.arrays,
        guid,
        seats,
        out,
        spares,
    )
}

fn spares_in(
    alloc: Global,
    config: &Config,
    guid: &Guid,
    seats: &[Seat],
    used: &[u32],
) -> Result<Vec<u32>, NoMemory>
    ensures { IfOk result (λ spares. spares.items ≡ spares_for guid.now seats.now used.now config.now.members) }
{
    spares_for(alloc, guid, seats, used, &config.members)
}

fn begun_at(
    alloc: Global,
    config: &Config,
    guid: &Guid,
    seats: &[Seat],
    used: &[u32],
    out: Out,
) -> Result<Begun, RebuildFault>
    requires { 1 ≤ out.strip }
    ensures { IsBegun (begun_at config.now guid.now seats.now used.now out) result }
{
    if is_current(&config.members, out.reference) {
        return Ok(Begun::Again(out.target));
    }
    let spares = spares_in(alloc, config, guid, seats, used)?;
    onto_any(alloc, config, guid, seats, out, spares.as_slice())
}

/// The disks that an array isn't put on: these, and those on which it has a position.
fn passed_over(alloc: Global, aside: &[u32], array: &Array) -> Result<Vec<u32>, NoMemory>
    ensures { IfOk result (λ used. used.items ≡ aside.now ++ references array.now) }
{
    let mut used = Vec::new(alloc);
    used.extend_from_slice(aside)?;
    used.extend_from_slice(references(alloc, array)?.as_slice())?;
    Ok(used)
}

fn begun_in(
    alloc: Global,
    config: &Config,
    guid: &Guid,
    seats: &[Seat],
    aside: &[u32],
    array: &Array,
) -> Result<Begun, RebuildFault>
    requires { length array.now.elements ≤ 2 ^ 8 }
    ensures { IsBegun (begun_in config.now guid.now seats.now (aside.now ++ references array.now) (first_out array.now)) result }
{
    match first_out(array) {
        Some(out) => {
            let used = passed_over(alloc, aside, array)?;
            begun_at(alloc, config, guid, seats, used.as_slice(), out)
        }
        None => Ok(Begun::Nothing),
    }
}

/// How the rebuild of an array begins: for its first position that is out of sync, by element and position. Where the disk of
/// that position is no current member it gets the first spare with room, the array's own ones before the global ones, each in
/// table order. A spare is a current member with a seat, on whose disk the array has no position, and none of the disks that are set
/// aside. It has room where the least start ends the extent within its configured size and at or below its seat's floor.
///
/// # Errors
/// `NoSpare` exactly where there is no such spare, and `Small` exactly where none of them has room. `Memory` where memory ran
/// out.
#[tactic(auto, unfolding(crate::specs::Begin::begun))]
pub fn begin(
    alloc: Global,
    config: &Config,
    array: &Guid,
    seats: &[Seat],
    aside: &[u32],
) -> Result<Begun, RebuildFault>
    requires { (found : arrays.Array) → lookup (same_guid array.now) config.now.arrays ≡ Some found → length found.elements ≤ 2 ^ 8 }
    // promise:chosen
    ensures { IsBegun (begun config.now array.now seats.now aside.now) result }
{
    match config.arrays.get(array) {
        Some(found) => begun_in(alloc, config, array, seats, aside, found),
        None => Ok(Begun::Nothing),
    }
}

/// The change that ends the rebuild of a position.
pub fn finish(array: &Guid, target: &Target) -> Change
    ensures { result ≡ Finish array.now target.now.element target.now.position }
{
    Change::Finish {
        array: *array,
        element: target.element,
        position: target.position,
    }
}
