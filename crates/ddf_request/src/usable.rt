//! What its disks and its state tell of an array that a command is to use. docs/GROUPS.md#orders-of-refusal
ghost use Rattle.std.specs.Prelude.{◌≡◌, Some, find, IfOk};
ghost use Rattle.std.specs.Option.{option_copied};
ghost use Rattle.ddf_request.specs.Usable.{bad_blocks, is_bad, is_held, is_held_from_writes, lies_on, useless};
ghost use Rattle.ddf_request.specs.FirstCauses.{is_useless};

use ddf_array::use_refusal;
use ddf_bytes::{Guid, NoMemory};
use ddf_config::{Array, Config, Extent, Refusal, Seat, array_extents};
use std::alloc::Global;

fn lies_on(extents: &[Extent], reference: u32) -> bool
    ensures { result ≡ lies_on extents.now reference }
{
    extents.iter().any(|one| one.reference == reference)
}

fn is_bad(extents: &[Extent], seat: &Seat) -> bool
    ensures { result ≡ is_bad extents.now seat.now }
{
    seat.bad > 0 && lies_on(extents, seat.reference)
}

/// The seat of the least slot that lists bad blocks and holds one of these extents.
fn bad_seat<'a>(seats: &'a [Seat], extents: &[Extent]) -> Option<&'a Seat>
    ensures { option_copied result ≡ find (is_bad extents.now) seats.now }
{
    seats.iter().find(|seat| is_bad(extents, seat))
}

/// The refusal of an array with bad blocks, which names the least slot.
pub fn bad_blocks(alloc: Global, seats: &[Seat], array: &Array) -> Result<Option<Refusal>, NoMemory>
    ensures { IfOk result (λ refusal. refusal ≡ bad_blocks seats.now array.now) }
{
    let extents = array_extents(alloc, array)?;
    match bad_seat(seats, extents.as_slice()) {
        Some(seat) => Ok(Some(Refusal::BadBlocks(seat.slot))),
        None => Ok(None),
    }
}

/// Whether the state of an array or its access bits forbid that it is used: it is being morphed, it is deleted, or nobody may access it.
pub fn is_held(array: &Array) -> bool
    ensures { result ≡ is_held array.now }
{
    array.state / 8 % 2 == 1 || array.is_deleted() || array.init / 64 == 3
}

/// Whether they forbid that its blocks are written: it may not be used, or nobody may write it.
pub fn is_held_from_writes(array: &Array) -> bool
    ensures { result ≡ is_held_from_writes array.now }
{
    is_held(array) || array.init / 64 == 2
}

/// Whether a refusal says that a level isn't served, or that the numbers make no array.
fn is_useless(refusal: &Option<Refusal>) -> bool
    ensures { result ≡ is_useless refusal.now }
{
    matches!(refusal, Some(Refusal::Level(_) | Refusal::Shape))
}

/// Why the array of a GUID can't be used at all: a level isn't served, or the numbers make no array or its extents don't lie well.
pub fn useless(
    alloc: Global,
    config: &Config,
    seats: &[Seat],
    guid: &Guid,
    array: &Array,
) -> Result<Option<Refusal>, NoMemory>
    ensures { IfOk result (λ refusal. refusal ≡ useless config.now seats.now guid.now array.now) }
{
    let refusal = use_refusal(alloc, config, seats, guid, array)?;
    if is_useless(&refusal) {
        return Ok(refusal);
    }
    Ok(None)
}
