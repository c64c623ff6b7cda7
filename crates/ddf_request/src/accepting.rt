//! `accept`: an array whose copies and parity are taken to agree.
ghost use Rattle.std.specs.Prelude.{◌≡◌, IfOk};
ghost use Rattle.ddf_request.specs.Request.{IsRequested, accept_change, accept_refusal};

use crate::named::named_array;
use crate::usable::{is_held, useless};
use ddf_bytes::{Guid, NoMemory};
use ddf_config::{Array, Config, Refusal, Seat, first_refusal, refuse_if};
use ddf_plan::{Change, PlanFault};
use ddf_repair::accept;
use std::alloc::Global;

/// Why the array of a GUID isn't accepted: it can't be used at all, or it is held.
fn accept_refusal(
    alloc: Global,
    config: &Config,
    seats: &[Seat],
    guid: &Guid,
    array: &Array,
) -> Result<Option<Refusal>, NoMemory>
    ensures { IfOk result (λ refusal. refusal ≡ accept_refusal config.now seats.now guid.now array.now) }
{
    let useless = useless(alloc, config, seats, guid, array)?;
    Ok(first_refusal(&[useless, refuse_if(is_held(array), Refusal::Held)]))
}

/// The change that clears the mark of the array that this word names. None where it isn't marked.
pub(crate) fn accept_change(
    alloc: Global,
    config: &Config,
    seats: &[Seat],
    name: &[u8],
) -> Result<Option<Change>, PlanFault>
    ensures { IsRequested (accept_change config.now seats.now name.now) result }
{
    let Some((guid, array)) = named_array(&config.arrays, name) else {
        return Err(PlanFault::Refused(Refusal::NoArray));
    };
    match accept_refusal(alloc, config, seats, &guid, array)? {
        Some(refusal) => Err(PlanFault::Refused(refusal)),
        None => Ok(accept(config, &guid)),
    }
}
