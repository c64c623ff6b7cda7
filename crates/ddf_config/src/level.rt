//! The primary levels that this engine serves. One pair of codes is served only where this engine has made the array: under it Linux keeps blocks at
//! other places, and read by ours they would be wrong. docs/LINUX.md#raid-1e
ghost use Rattle.std.specs.Prelude.{◌≡◌};
ghost use Rattle.ddf_config.specs.Levels.{is_disputed, is_level, is_level_of, is_own, level_refusal, unserved_level};
ghost use Rattle.ddf_config.specs.Refusals.{part_refusal};

use crate::{Array, ElementPlan, Refusal};
use ddf_bytes::Guid;

/// Whether a primary level is served: RAID 0, 1, 4 and 5, JBOD, RAID 1E and concatenation.
pub fn is_level(level: u8) -> bool
    ensures { result ≡ is_level level }
{
    matches!(level, 0x00 | 0x01 | 0x04 | 0x05 | 0x0F | 0x11 | 0x1F)
}

/// Whether these are the codes of RAID 1E with offset copies, under which Linux keeps blocks at other places.
pub fn is_disputed(level: u8, qualifier: u8) -> bool
    ensures { result ≡ is_disputed level qualifier }
{
    level == 0x11 && qualifier == 0x01
}

/// Whether this engine has made the array of a GUID, which begins as those do that it makes.
fn is_own(guid: &Guid) -> bool
    ensures { result ≡ is_own guid.now }
{
    let bytes = guid.bytes();
    &bytes[..8] == b"RDDF-A  ".as_slice()
}

/// Whether the level of an element is served, in an array of this GUID.
fn is_level_of(guid: &Guid, element: &ElementPlan) -> bool
    ensures { result ≡ is_level_of guid.now element.now }
{
    is_level(element.level) && (!is_disputed(element.level, element.qualifier) || is_own(guid))
}

fn level_refusal(guid: &Guid, part: &Option<ElementPlan>) -> Option<Refusal>
    ensures { result ≡ level_refusal guid.now part.now }
{
    match part {
        Some(element) => {
            if is_level_of(guid, element) {
                None
            } else {
                Some(Refusal::Level(element.level))
            }
        }
        None => None,
    }
}

/// The refusal of the first element of an array of this GUID whose primary level isn't served.
pub fn unserved_level(guid: &Guid, array: &Array) -> Option<Refusal>
    ensures { result ≡ unserved_level guid.now array.now }
{
    first_of(guid, array.elements.items())
}

fn first_of(guid: &Guid, parts: &[Option<ElementPlan>]) -> Option<Refusal>
    ensures { result ≡ part_refusal (level_refusal guid.now) parts.now }
{
    for part in parts {
        if let Some(refusal) = level_refusal(guid, part) {
            return Some(refusal);
        }
    }
    None
}
