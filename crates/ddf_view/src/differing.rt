//! The least difference of two copies.
ghost use Rattle.std.specs.Prelude.{◌≡◌, filter, filter_map, map, option_map};
ghost use Rattle.ddf_view.specs.View.{element_of, key_of_slot};
ghost use Rattle.ddf_view.specs.Differ.{difference, differing_elements, element_differs, key_cmp, key_of, least};

use crate::arrays::least_array;
use crate::disks::least_disk;
use crate::held::key_of_slot;
use crate::same::same_held;
use crate::{Difference, View};
use ddf_bytes::Guid;
use ddf_config_records::RecordSlot;

/// Whether both copies hold an element, and differ in it.
fn element_differs(one: &View, other: &View, key: &(Guid, u8)) -> bool
    ensures { result ≡ element_differs one.now.elements other.now.elements key.now }
{
    let index = usize::from(key.1);
    match (one.find_held(&key.0, index), other.find_held(&key.0, index)) {
        (Some(first), Some(second)) => !same_held(&first, &second),
        (None, _) | (Some(_), None) => false,
    }
}

/// The least of the elements of these slots in which two copies differ.
fn least_of_slots(one: &View, other: &View, slots: &[RecordSlot]) -> Option<(Guid, u8)>
    ensures { result ≡ least key_cmp (filter (element_differs one.now.elements other.now.elements) (filter_map key_of_slot slots.now)) }
{
    slots
        .iter()
        .filter_map(key_of_slot)
        .filter(|key| element_differs(one, other, key))
        .min()
}

/// The least of the elements that both copies hold and in which they differ: by array, then by place.
fn least_element(one: &View, other: &View) -> Option<(Guid, u8)>
    ensures { result ≡ least key_cmp (differing_elements one.now.elements other.now.elements) }
{
    least_of_slots(one, other, one.slots())
}

/// The least difference of the copies of two disks of one group (profile), or None where they agree. Disks come first, by
/// reference, then arrays, by GUID, then elements, by array and place.
///
/// A disk differs in its GUID, type, state, size or place among the used entries, or where one copy lacks it. Of a disk that is being
/// rebuilt bit 3 of the type isn't compared: there it tells Linux that the disk is being filled, and only the disks that Linux reads
/// have it. An array differs in its number, state, init, name or place among the used entries, or where one copy lacks it. An element
/// that both copies hold differs in a named field of its record other than the timestamp and the block size, and where both have
/// valid notes in the positions in sync and the rebuild rows.
#[tactic(auto, unfolding(crate::specs::Differ::difference))]
pub fn first_difference(one: &View, other: &View) -> Option<Difference>
    ensures { result ≡ difference one.now other.now }
{
    if let Some(reference) = least_disk(one.disk_rows(), other.disk_rows()) {
        return Some(Difference::Disk(reference));
    }
    if let Some(guid) = least_array(one.array_rows(), other.array_rows()) {
        return Some(Difference::Array(guid));
    }
    match least_element(one, other) {
        Some((array, index)) => Some(Difference::Element(array, index)),
        None => None,
    }
}
