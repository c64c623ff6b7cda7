//! What is left of spares where an array is no more.
ghost use Rattle.std.specs.Prelude.{◌≡◌, IfOk, not, filter};
ghost use Rattle.ddf_config.specs.Members.{same_guid};
ghost use Rattle.ddf_plan.specs.Delete.{dedicated, use_without};

use ddf_bytes::{Guid, NoMemory, Seq};
use ddf_config::SpareUse;
use std::alloc::Global;

/// A spare for no array is none.
fn dedicated(guids: Vec<Guid>) -> SpareUse
    ensures { result ≡ dedicated guids.items }
{
    if guids.is_empty() {
        SpareUse::No
    } else {
        SpareUse::Dedicated(Seq::new(guids))
    }
}

/// The use of a spare without an array.
pub(crate) fn use_without(
    alloc: Global,
    guid: Guid,
    use_as: &SpareUse,
) -> Result<SpareUse, NoMemory>
    ensures { IfOk result (λ left. left ≡ use_without guid use_as.now) }
{
    match use_as {
        SpareUse::No => Ok(SpareUse::No),
        SpareUse::Global => Ok(SpareUse::Global),
        SpareUse::Revertible => Ok(SpareUse::Revertible),
        SpareUse::Dedicated(guids) => {
            let left = guids_without(alloc, guid, guids.items())?;
            Ok(dedicated(left))
        }
    }
}

fn guids_without(alloc: Global, guid: Guid, guids: &[Guid]) -> Result<Vec<Guid>, NoMemory>
    ensures { IfOk result (λ left. left.items ≡ filter (λ other. not (same_guid guid other)) guids.now) }
{
    let mut left = Vec::with_capacity(alloc, guids.len())?;
    for other in guids {
        if guid != *other {
            left.push(*other)?;
        }
    }
    Ok(left)
}
