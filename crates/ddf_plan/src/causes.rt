//! Why a change is refused: a row for each, in its order, of which the first that holds is told. docs/GROUPS.md#orders-of-refusal
ghost use Rattle.std.specs.Prelude.{◌≡◌, [], ◌∷◌, ◌++◌, IfOk};
ghost use Rattle.ddf_config.specs.Refusals.{first_refusal};
ghost use Rattle.ddf_plan.specs.Refusals.{not_current, spent};
ghost use Rattle.ddf_plan.specs.Rebuild.{position_causes};
ghost use Rattle.ddf_plan.specs.Causes.{causes, causes_of, steps_of, refusal_of};
ghost use Rattle.ddf_plan.specs.declared.change.Change.TheVariants.{Fail};

use crate::create_refusal::create_cause;
use crate::fail::fail_cause;
use crate::floors::extents_refusal;
use crate::members::members_after;
use crate::rebuild::{no_holder, no_position};
use crate::refuse::{no_array, not_current, spent};
use crate::spare::spare_cause;
use crate::{Change, Config, Refusal, Seat};
use ddf_bytes::{Guid, NoMemory};
use ddf_config::first_refusal;
use std::alloc::Global;

/// Why a disk can't count as failed, the sequence number aside.
#[tactic(auto, unfolding(crate::specs::Causes::causes))]
fn failing_cause(
    alloc: Global,
    config: &Config,
    change: &Change,
    seats: &[Seat],
    failed: u32,
    most: Option<u16>,
) -> Result<Option<Refusal>, NoMemory>
    requires { change.now ≡ Fail failed }
    ensures { IfOk result (λ refusal. refusal ≡ causes most config.now change.now seats.now) }
{
    let members = members_after(alloc, config, change)?;
    Ok(fail_cause(config, &members, seats, failed))
}

/// Why a position can't get another disk.
fn begin_cause(
    config: &Config,
    seats: &[Seat],
    array: Guid,
    element: u8,
    position: u16,
    reference: u32,
) -> Option<Refusal>
    ensures { result ≡ first_refusal (position_causes config.now array element position ++ not_current config.now seats.now (reference ∷ []) ∷ []) }
{
    if let Some(refusal) = no_position(config, array, element, position) {
        return Some(refusal);
    }
    not_current(config, seats, &[reference])
}

/// Why a change is refused, by the configuration and the bound alone: the first of its refusals, of which `NoExtent` and
/// `SequenceSpent` don't count. None where no other holds. A refusal that names a slot names that of the member's seat, 64
/// where it has none.
///
/// - `Lose`: `NotMember`
/// - `Create`: `NotMember`, `NameTaken`, `Level`, `Shape`, `Clash`, `InUse`
/// - `Delete`: `NoArray`
/// - `Spare`: `NotMember`, `NoArray`, `InUse`
/// - `Fail`: `NotMember`, `InUse`, `Lost`
/// - `Mark`, `Unmark`, `Rewind`: `NoArray`
/// - `Begin`, `Progress`, `Finish`, `Return`: `NoArray`, `Shape`, `NotMember`
///
/// `Shape` holds also where an element of a new array has more members than `most`, the greatest number that a record of
/// the group's disks has room for. With no bound that isn't asked.
///
/// # Errors
/// Memory ran out.
#[tactic(auto, unfolding(crate::specs::Causes::causes))]
pub fn cause(
    alloc: Global,
    config: &Config,
    change: &Change,
    seats: &[Seat],
    most: Option<u16>,
) -> Result<Option<Refusal>, NoMemory>
    ensures { IfOk result (λ refusal. refusal ≡ causes most config.now change.now seats.now) }
{
    match change {
        Change::Lose(references) => Ok(not_current(config, seats, references.items())),
        Change::Create(guid, array) => create_cause(alloc, config, seats, *guid, array, most),
        Change::Delete(guid) => Ok(no_array(config, *guid)),
        Change::Spare(spare, use_as) => Ok(spare_cause(config, seats, *spare, use_as)),
        Change::Fail(failed) => failing_cause(alloc, config, change, seats, *failed, most),
        Change::Mark(guid) => Ok(no_array(config, *guid)),
        Change::Unmark(guid, _) => Ok(no_array(config, *guid)),
        Change::Rewind(guid) => Ok(no_array(config, *guid)),
        Change::Begin {
            array,
            element,
            position,
            reference,
            ..
        } => Ok(begin_cause(config, seats, *array, *element, *position, *reference)),
        Change::Progress {
            array,
            element,
            position,
            ..
        } => Ok(no_holder(config, seats, *array, *element, *position)),
        Change::Finish {
            array,
            element,
            position,
        } => Ok(no_holder(config, seats, *array, *element, *position)),
        Change::Return {
            array,
            element,
            position,
            reference,
            ..
        } => Ok(begin_cause(config, seats, *array, *element, *position, *reference)),
    }
}

/// By how much a change raises the sequence number: 2 where disks are lost or fail, 1 otherwise.
pub fn steps_of(change: &Change) -> u32
    ensures { result ≡ steps_of change.now }
{
    match change {
        Change::Lose(_) | Change::Fail(_) => 2,
        Change::Create(_, _)
        | Change::Delete(_)
        | Change::Spare(_, _)
        | Change::Mark(_)
        | Change::Unmark(_, _)
        | Change::Rewind(_)
        | Change::Begin { .. }
        | Change::Progress { .. }
        | Change::Finish { .. }
        | Change::Return { .. } => 1,
    }
}

/// That the sequence number has the steps of a change left.
fn spent_by(config: &Config, change: &Change) -> Option<Refusal>
    ensures { result ≡ spent config.now.sequence (steps_of change.now) }
{
    spent(config.sequence, steps_of(change))
}

/// Why there is no configuration after a change.
pub(crate) fn refusal_of(
    alloc: Global,
    config: &Config,
    change: &Change,
    seats: &[Seat],
) -> Result<Option<Refusal>, NoMemory>
    ensures { IfOk result (λ refusal. refusal ≡ refusal_of config.now change.now seats.now) }
{
    let cause = cause(alloc, config, change, seats, None)?;
    let room = extents_refusal(alloc, config, change, &[], seats)?;
    Ok(first_refusal(&[cause, room, spent_by(config, change)]))
}
