//! Which slot has the valid notes: where several do, the lowest alone counts, so that two readers never follow different ones.
ghost use Rattle.std.specs.Prelude.{◌≡◌, position, slice_get, is_some};
ghost use Rattle.std.specs.Option.{option_and_then};
ghost use Rattle.ddf_config_records.specs.Slots.{valid_notes, valid_of};

use crate::slot::RecordSlot;
use ddf_bytes::Guid;

/// The lowest slot that has valid notes: those of a header with this group and sequence (profile).
pub fn valid_notes_slot(slots: &[RecordSlot], group: &Guid, sequence: u32) -> Option<usize>
    ensures exact { result ≡ position (λ slot. is_some (valid_of group.now sequence slot)) slots.now }

    // Its notes are the valid notes of the section.
    ensures notes { option_and_then (λ place. option_and_then (valid_of group.now sequence) (slice_get slots.now place)) result
        ≡ valid_notes group.now sequence slots.now }
{
    first_valid(slots, group, sequence)
}

fn first_valid(slots: &[RecordSlot], group: &Guid, sequence: u32) -> Option<usize>
    ensures { result ≡ position (λ slot. is_some (valid_of group.now sequence slot)) slots.now }
{
    slots
        .iter()
        .position(|slot| has_valid_notes(slot, group, sequence))
}

fn has_valid_notes(slot: &RecordSlot, group: &Guid, sequence: u32) -> bool
    ensures { result ≡ is_some (valid_of group.now sequence slot.now) }
{
    match slot {
        RecordSlot::Notes(notes) => {
            notes.group.bytes() == group.bytes() && notes.sequence == sequence
        }
        _ => false,
    }
}
