//! The change that creates an array, or what refuses it beside the plan.
ghost use Rattle.std.specs.Prelude.{◌≡◌, IfOk};
ghost use Rattle.std.specs.List.{list_any};
ghost use Rattle.ddf_plan.specs.Causes.{causes};
ghost use Rattle.ddf_plan.specs.Lose.{is_among};
ghost use Rattle.ddf_request.specs.NewArray.{IsCreation, is_misfit, is_misread, lies_on_one, refused_before, unfit, unfit_refusal};
ghost use Rattle.ddf_request.specs.Request.{IsRequested, create_change};
ghost use Rattle.ddf_request.specs.Slots.{reference_on};

use crate::new_array::{new_array, new_array_guid, slots_of};
use crate::slots::reference_on;
use ddf_bytes::{NoMemory, Stamp};
use ddf_config::{Config, Refusal, Seat, first_refusal, is_disputed, refuse_if};
use ddf_plan::{Change, PlanFault, cause, is_among};
use ddf_words::Creation;
use std::alloc::Global;

/// Whether the words say `single` of several elements, or another secondary level of one.
fn is_misfit(creation: &Creation) -> bool
    ensures { result ≡ is_misfit creation.now }
{
    let count = creation.elements.items().len();
    match creation.secondary {
        None => count != 1,
        Some(_) => count <= 1,
    }
}

/// Whether one of these slots has one of these disks.
fn holds_one(linux: &[u32], seats: &[Seat], slots: &[u8]) -> bool
    ensures { result ≡ list_any (λ slot. is_among linux.now (reference_on seats.now slot)) slots.now }
{
    slots
        .iter()
        .any(|slot| is_among(linux, reference_on(seats, *slot)))
}

fn lies_on_one(
    alloc: Global,
    linux: &[u32],
    seats: &[Seat],
    creation: &Creation,
) -> Result<bool, NoMemory>
    ensures { IfOk result (λ lies. lies ≡ lies_on_one linux.now seats.now creation.now) }
{
    let slots = slots_of(alloc, creation.elements.items())?;
    Ok(holds_one(linux, seats, slots.as_slice()))
}

/// Whether Linux would take the level of a new array for another one, on a disk that it reads.
fn is_misread(
    alloc: Global,
    linux: &[u32],
    seats: &[Seat],
    creation: &Creation,
) -> Result<bool, NoMemory>
    ensures { IfOk result (λ is. is ≡ is_misread linux.now seats.now creation.now) }
{
    let lies = lies_on_one(alloc, linux, seats, creation)?;
    Ok(is_disputed(creation.level, creation.qualifier) && lies)
}

/// What refuses a new array beside the plan.
fn unfit(
    alloc: Global,
    linux: &[u32],
    seats: &[Seat],
    creation: &Creation,
) -> Result<Option<Refusal>, NoMemory>
    ensures { IfOk result (λ refusal. refusal ≡ unfit linux.now seats.now creation.now) }
{
    let misread = is_misread(alloc, linux, seats, creation)?;
    Ok(first_refusal(&[
        refuse_if(misread, Refusal::Level(creation.level)),
        refuse_if(is_misfit(creation), Refusal::Shape),
    ]))
}

/// A refusal of the plan that comes before the last one, and the last one otherwise.
fn refused_before(last: Refusal, cause: Option<Refusal>) -> Refusal
    ensures { result ≡ refused_before last cause }
{
    match cause {
        Some(Refusal::NotMember(slot)) => Refusal::NotMember(slot),
        Some(Refusal::NameTaken) => Refusal::NameTaken,
        Some(Refusal::Level(code)) => Refusal::Level(code),
        _ => last,
    }
}

/// Why an array isn't created that is refused beside the plan.
fn unfit_refusal(
    alloc: Global,
    last: Refusal,
    config: &Config,
    seats: &[Seat],
    change: &Change,
) -> Result<Refusal, NoMemory>
    ensures { IfOk result (λ refusal. refusal ≡ unfit_refusal last config.now seats.now change.now) }
{
    let cause = cause(alloc, config, change, seats, None)?;
    Ok(refused_before(last, cause))
}

/// The change that creates the array that the words are for. `linux` are the disks that Linux reads.
pub(crate) fn create_change(
    alloc: Global,
    config: &Config,
    seats: &[Seat],
    linux: &[u32],
    stamp: &Stamp,
    creation: &Creation,
) -> Result<Change, PlanFault>
    requires { IsCreation creation.now }
    ensures { IsRequested (create_change config.now seats.now linux.now stamp.now creation.now) result }
{
    let array = new_array(alloc, config, seats, creation)?;
    let change = Change::Create(new_array_guid(config, stamp), array);
    let last = unfit(alloc, linux, seats, creation)?;
    if let Some(last) = last {
        let refusal = unfit_refusal(alloc, last, config, seats, &change)?;
        return Err(PlanFault::Refused(refusal));
    }
    Ok(change)
}
