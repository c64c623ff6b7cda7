//! Which spares an array isn't rebuilt onto: those that Linux reads, where it takes the array for another layout. docs/LINUX.md#raid-1e
ghost use Rattle.std.specs.Prelude.{◌≡◌, Some};
ghost use Rattle.std.specs.List.{list_any};
ghost use Rattle.std.specs.Map.{lookup};
ghost use Rattle.ddf_config.specs.Members.{same_guid};
ghost use Rattle.ddf_config.specs.declared.array.Array as arrays;
ghost use Rattle.ddf_rebuild_command.specs.PassedOver.{is_misread, passed_over};

use ddf_bytes::Guid;
use ddf_config::{Array, Config, ElementPlan, is_disputed};

/// Whether Linux takes an element for another layout.
fn is_misread(part: &Option<ElementPlan>) -> bool
    ensures { result ≡ is_misread part.now }
{
    match part {
        Some(element) => is_disputed(element.level, element.qualifier),
        None => false,
    }
}

fn is_any_misread(parts: &[Option<ElementPlan>]) -> bool
    ensures { result ≡ list_any is_misread parts.now }
{
    parts.iter().any(|part| is_misread(part))
}

/// Of the members whose disks Linux reads those that an array isn't put on.
#[tactic(auto, unfolding(crate::specs::PassedOver::passed_over))]
fn passed_by<'a>(array: &Array, linux: &'a [u32]) -> &'a [u32]
    ensures { result.now ≡ passed_over linux.now array.now }
{
    if is_any_misread(array.elements.items()) {
        linux
    } else {
        &[]
    }
}

/// The same of the array of a GUID.
pub(crate) fn passed_over<'a>(config: &Config, guid: &Guid, linux: &'a [u32]) -> &'a [u32]
    ensures { (array : arrays.Array) → lookup (same_guid guid.now) config.now.arrays ≡ Some array → result.now ≡ passed_over linux.now array }
{
    match config.arrays.get(guid) {
        Some(array) => passed_by(array, linux),
        None => &[],
    }
}
