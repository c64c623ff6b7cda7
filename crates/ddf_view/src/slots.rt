//! The notes and the spare record among the slots of a copy.
ghost use Rattle.std.specs.Prelude.{◌≡◌, false};
ghost use Rattle.std.specs.Option.{option_copied, option_map_or};
ghost use Rattle.std.specs.List.{list_any};
ghost use Rattle.std.specs.Str.{bytes_eq};
ghost use Rattle.ddf_config_records.specs.Slots.{valid_notes, valid_of};
ghost use Rattle.ddf_view.specs.View.{first_spare, spare_of};

use ddf_bytes::Guid;
use ddf_config_records::{Notes, RecordSlot, SpareRecord};

/// The notes of a slot, where they are those of a header with this GUID and sequence.
fn valid_of<'a>(slot: &'a RecordSlot, group: &Guid, sequence: u32) -> Option<&'a Notes>
    ensures { option_copied result ≡ valid_of group.now sequence slot.now }
{
    match slot {
        RecordSlot::Notes(notes) => {
            if notes.group == *group && notes.sequence == sequence {
                Some(notes)
            } else {
                None
            }
        }
        _ => None,
    }
}

/// The valid notes of the lowest slot that has some.
pub(crate) fn valid_notes<'a>(
    slots: &'a [RecordSlot],
    group: &Guid,
    sequence: u32,
) -> Option<&'a Notes>
    ensures { option_copied result ≡ valid_notes group.now sequence slots.now }
{
    for slot in slots {
        if let Some(notes) = valid_of(slot, group, sequence) {
            return Some(notes);
        }
    }
    None
}

/// The spare record of a slot that holds one.
pub fn spare_of(slot: &RecordSlot) -> Option<&SpareRecord>
    ensures { option_copied result ≡ spare_of slot.now }
{
    match slot {
        RecordSlot::Spare(spare) => Some(spare),
        RecordSlot::Element(_)
        | RecordSlot::Copied(_)
        | RecordSlot::Notes(_)
        | RecordSlot::Vendor(..)
        | RecordSlot::Unread(..)
        | RecordSlot::Unused(_) => None,
    }
}

/// The spare record of the lowest slot that holds one.
pub fn first_spare(slots: &[RecordSlot]) -> Option<&SpareRecord>
    ensures { option_copied result ≡ first_spare slots.now }
{
    for slot in slots {
        if let Some(spare) = spare_of(slot) {
            return Some(spare);
        }
    }
    None
}

fn is_among(arrays: &[Guid], array: &Guid) -> bool
    ensures { result ≡ list_any (bytes_eq array.now) arrays.now }
{
    arrays.iter().any(|other| *array == *other)
}

/// Whether the first spare record names an array.
pub(crate) fn spare_names(slots: &[RecordSlot], array: &Guid) -> bool
    ensures { result ≡ option_map_or (λ spare. list_any (bytes_eq array.now) spare.arrays) (first_spare slots.now) false }
{
    match first_spare(slots) {
        Some(spare) => is_among(spare.arrays.items(), array),
        None => false,
    }
}
