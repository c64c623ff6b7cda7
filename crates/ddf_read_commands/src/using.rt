//! The use of an array's blocks, and what it is refused for: decided once, for every command over blocks. docs/GROUPS.md#orders-of-refusal
ghost use Rattle.std.specs.Prelude.{◌≡◌, ℕ, List, Some, ◌+◌, nat_lt, IfOk};
ghost use Rattle.ddf_array.specs.Viewing.{view_of};
ghost use Rattle.ddf_recovery.specs.Recovery.{trusted_seats};
ghost use Rattle.ddf_config.specs.Refusals.{first_refusal};
ghost use Rattle.ddf_config.specs.Shapes.{array_capacity};
ghost use Rattle.ddf_request.specs.Named.{named_array};
ghost use Rattle.ddf_read_commands.specs.declared.using.Access.{Access};
ghost use Rattle.ddf_read_commands.specs.Use.{IsViewed, MayUse, array_refusals, failure_of_volume, is_forbidden, is_out_of_range};

use ddf_answer::Failure;
use ddf_assembly::Group;
use ddf_bytes::{Guid, NoMemory};
use ddf_config::{Array, Config, Refusal, Seat, array_capacity, first_refusal, refuse_if};
use ddf_read::{View, ViewFault, VolumeFault};
use ddf_recovery::trusted_seats;
use ddf_request::{bad_blocks, is_held, is_held_from_writes, named_array, useless};
use std::alloc::Global;

/// What is done with the blocks of an array.
#[derive(Clone, Copy)]
pub enum Access {
    /// Their values stay: they are read, compared or made to agree.
    Reads,
    /// They get other bytes.
    Writes,
}

/// The array that a word names, by its GUID, with the view of it: nothing of its records refuses that these blocks of it are used so.
///
/// # Errors
/// `Refused`, in order: `NoArray` where no array has the name; a level isn't served; the numbers make no array; the range passes the capacity;
/// a disk of it has bad blocks; its state or its access bits forbid it; an element of it is unknown. `Memory` where memory ran out.
pub fn usable(
    alloc: Global,
    config: &Config,
    seats: &[Seat],
    name: &[u8],
    start: u64,
    count: u64,
    access: Access,
) -> Result<(Guid, View), Failure>
    ensures may { MayUse access config.now seats.now name.now start count result }
{
    match named_array(&config.arrays, name) {
        Some((guid, array)) => usable_array(
            alloc, config, seats, guid, array, start, count, access,
        ),
        None => Err(Failure::Refused(Refusal::NoArray)),
    }
}

/// The same over the seats of a group that blocks may be read from. A disk that recovery must not write over counts as absent.
pub(crate) fn readable_in(
    alloc: Global,
    group: &Group,
    name: &[u8],
    start: u64,
    count: u64,
) -> Result<(Guid, View), Failure>
    ensures may { MayUse Access.Reads group.now.config (trusted_seats group.now) name.now start count result }
{
    let seats = trusted_seats(alloc, group)?;
    usable(
        alloc,
        group.config(),
        &seats,
        name,
        start,
        count,
        Access::Reads,
    )
}

/// The same of an array of the configuration.
fn usable_array(
    alloc: Global,
    config: &Config,
    seats: &[Seat],
    guid: Guid,
    array: &Array,
    start: u64,
    count: u64,
    access: Access,
) -> Result<(Guid, View), Failure>
    ensures may { (word : List ℕ) → named_array config.now.arrays word ≡ Some (guid, array.now) → MayUse access config.now seats.now word start count result }
{
    let refusal = array_refusal(alloc, config, seats, &guid, array, start, count, access)?;
    if let Some(refusal) = refusal {
        return Err(Failure::Refused(refusal));
    }
    let view = view_of(alloc, config, seats, &guid)?;
    Ok((guid, view))
}

/// The view of an array.
fn view_of(alloc: Global, config: &Config, seats: &[Seat], guid: &Guid) -> Result<View, Failure>
    ensures { IsViewed (view_of config.now guid.now seats.now) result }
{
    match View::new(alloc, config, guid, seats) {
        Ok(view) => Ok(view),
        Err(ViewFault::Refused(refusal)) => Err(Failure::Refused(refusal)),
        Err(ViewFault::Memory) => Err(Failure::Memory),
    }
}

/// Why blocks of an array aren't used, but for what its disks and its parity tell.
fn array_refusal(
    alloc: Global,
    config: &Config,
    seats: &[Seat],
    guid: &Guid,
    array: &Array,
    start: u64,
    count: u64,
    access: Access,
) -> Result<Option<Refusal>, NoMemory>
    ensures { IfOk result (λ refusal. refusal ≡ first_refusal (array_refusals access config.now seats.now guid.now array.now start count)) }
{
    let useless = useless(alloc, config, seats, guid, array)?;
    let capacity = array_capacity(alloc, array)?;
    let bad = bad_blocks(alloc, seats, array)?;
    let is_out = is_out_of_range(array, capacity, start, count);
    Ok(first_refusal(&[
        useless,
        refuse_if(is_out, Refusal::Range(capacity)),
        bad,
        refuse_if(is_forbidden(array, access), Refusal::Held),
        refuse_if(!array.is_complete(), Refusal::Lost),
    ]))
}

/// Whether the state or the access bits of an array forbid a use.
fn is_forbidden(array: &Array, access: Access) -> bool
    ensures { result ≡ is_forbidden access array.now }
{
    match access {
        Access::Reads => is_held(array),
        Access::Writes => is_held_from_writes(array),
    }
}

/// Whether blocks pass the capacity of an array. Of one that isn't complete that can't be told.
fn is_out_of_range(array: &Array, capacity: u64, start: u64, count: u64) -> bool
    requires { capacity ≡ array_capacity array.now }
    ensures { result ≡ is_out_of_range array.now start count }
{
    array.is_complete() && passes(capacity, start, count)
}

fn passes(capacity: u64, start: u64, count: u64) -> bool
    ensures { result ≡ nat_lt capacity (start + count) }
{
    start > capacity || count > capacity - start
}

/// Why blocks aren't used, as the program tells it.
pub fn failure_of(fault: VolumeFault) -> Failure
    ensures { result ≡ failure_of_volume fault }
{
    match fault {
        VolumeFault::Range(capacity) => Failure::Refused(Refusal::Range(capacity)),
        VolumeFault::Lost => Failure::Refused(Refusal::Lost),
        VolumeFault::Unsure => Failure::Refused(Refusal::Unsure),
        VolumeFault::Degraded => Failure::Refused(Refusal::Degraded),
        VolumeFault::Disk(slot) => Failure::Disk(slot),
    }
}
