//! The change that is asked for.
ghost use Rattle.std.specs.Prelude.{◌≡◌, IfOk};
ghost use Rattle.ddf_request.specs.Request.{IsRequested, IsWish, change_for, delete_change, request_of, slots_named};

use crate::accepting::accept_change;
use crate::creating::create_change;
use crate::named::named_guid;
use crate::new_array::slots_of;
use crate::slots::{reference_on, slots_refusal};
use crate::spare::spare_change;
use ddf_bytes::{NoMemory, Stamp};
use ddf_config::{Config, Refusal, Seat};
use ddf_plan::{Change, PlanFault};
use ddf_words::Wish;
use std::alloc::Global;

/// The change of a group that a wish asks for, where it asks for one, of a group of this configuration and these seats, on so many slots. `linux` are the
/// members on disks that Linux reads.
///
/// # Errors
/// `Refused` with the first of these. `NoSlot` with the first slot that isn't there, in the order of the words. `NotMember` with the
/// first slot whose disk is no current member. To delete: `NoArray` where the word names no array. For a spare: `NoArray` where a word
/// names no array, or one of which the disks tell no element. To accept: `NoArray`, or what the array can't be used for. To create, where Linux would
/// read the array as something else: what the plan refuses such an array for, where that comes before `Shape`, and `Level` otherwise; where the word for
/// the secondary level doesn't fit the count of elements: the same, and `Shape` otherwise. What the change itself is refused for comes behind. `Memory`
/// where memory ran out.
pub fn request(
    alloc: Global,
    slots: usize,
    config: &Config,
    seats: &[Seat],
    linux: &[u32],
    stamp: &Stamp,
    wish: &Wish,
) -> Result<Option<Change>, PlanFault>
    requires { IsWish wish.now }
    ensures { IsRequested (request_of slots config.now seats.now linux.now stamp.now wish.now) result }
{
    let named = slots_named(alloc, wish)?;
    if let Some(refusal) = slots_refusal(slots, seats, named.as_slice()) {
        return Err(PlanFault::Refused(refusal));
    }
    change_for(alloc, config, seats, linux, stamp, wish)
}

/// The slots that a wish names, in the order of its words.
fn slots_named(alloc: Global, wish: &Wish) -> Result<Vec<u8>, NoMemory>
    ensures { IfOk result (λ slots. slots.items ≡ slots_named wish.now) }
{
    match wish {
        Wish::Create(creation) => slots_of(alloc, creation.elements.items()),
        Wish::Spare { slot, .. } | Wish::Fail { slot } => Ok(Vec::from_slice(alloc, &[*slot])?),
        _ => Ok(Vec::new(alloc)),
    }
}

/// The change, where the slots that the wish names have current members.
fn change_for(
    alloc: Global,
    config: &Config,
    seats: &[Seat],
    linux: &[u32],
    stamp: &Stamp,
    wish: &Wish,
) -> Result<Option<Change>, PlanFault>
    requires { IsWish wish.now }
    ensures { IsRequested (change_for config.now seats.now linux.now stamp.now wish.now) result }
{
    match wish {
        Wish::Create(creation) => {
            let change = create_change(alloc, config, seats, linux, stamp, creation)?;
            Ok(Some(change))
        }
        Wish::Delete { name } => {
            let change = delete_change(config, name.items())?;
            Ok(Some(change))
        }
        Wish::Accept { name } => accept_change(alloc, config, seats, name.items()),
        Wish::Spare { slot, word } => {
            let change = spare_change(alloc, config, reference_on(seats, *slot), word)?;
            Ok(Some(change))
        }
        Wish::Fail { slot } => Ok(Some(Change::Fail(reference_on(seats, *slot)))),
    }
}

/// The change that deletes the array that this word names.
fn delete_change(config: &Config, name: &[u8]) -> Result<Change, PlanFault>
    ensures { IsRequested (delete_change config.now name.now) result }
{
    match named_guid(&config.arrays, name) {
        Some(guid) => Ok(Change::Delete(guid)),
        None => Err(PlanFault::Refused(Refusal::NoArray)),
    }
}
