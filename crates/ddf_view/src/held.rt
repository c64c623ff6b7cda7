//! The records that count, each with its note.
ghost use Rattle.std.specs.Prelude.{◌≡◌, ◌==◌, ◌&&◌, Option, slice_index};
ghost use Rattle.std.specs.Str.{bytes_eq};
ghost use Rattle.std.specs.Option.{option_copied, option_and_then};
ghost use Rattle.ddf_view.specs.View.{element_of, held_at, held_from, key_of_slot, note_at, find_held, find_note};

use ddf_bytes::Guid;
use ddf_config_records::{Element, Notes, RecordSlot, SlotNote};
use std::marker::Model;

/// A record that counts, with its note where there are valid notes. Contracts see both without the references.
#[derive(Drop)]
pub struct HeldRecord<'a> {
    /// The record.
    pub element: &'a Element,
    /// What is noted about it.
    pub note: Option<&'a SlotNote>,
}

impl<'a> Model for HeldRecord<'a> {
    ghost use Rattle.std.specs.Option.{option_copied};
    ghost use Rattle.ddf_view.specs.View as views;

    ghost Value = { views.HeldRecord };

    ghost view = { λ held. record { element = held.element.now; note = option_copied held.note } };
}

/// The element of a slot that holds one.
pub fn element_of(slot: &RecordSlot) -> Option<&Element>
    ensures { option_copied result ≡ element_of slot.now }
{
    match slot {
        RecordSlot::Element(element) | RecordSlot::Copied(element) => Some(element),
        RecordSlot::Spare(_)
        | RecordSlot::Notes(_)
        | RecordSlot::Vendor(..)
        | RecordSlot::Unread(..)
        | RecordSlot::Unused(_) => None,
    }
}

/// The array and the place among its elements, of a slot that holds an element.
pub(crate) fn key_of_slot(slot: &RecordSlot) -> Option<(Guid, u8)>
    ensures { result ≡ key_of_slot slot.now }
{
    match element_of(slot) {
        Some(element) => Some((element.array, element.index)),
        None => None,
    }
}

/// What is noted about a slot.
fn note_at<'a>(notes: Option<&'a Notes>, place: usize) -> Option<&'a SlotNote>
    ensures { option_copied result ≡ note_at (option_copied notes.entry) place }
{
    match notes {
        Some(notes) => notes.slots.items().get(place),
        None => None,
    }
}

/// Whether two GUIDs have the same bytes at the end of their number and of their chance. In those that are made here, and in Linux's, these
/// tell most of them apart, where the first ones are those of all.
fn may_be(one: &Guid, other: &Guid) -> bool
    ensures { result ≡ (slice_index one.now 15 == slice_index other.now 15 && slice_index one.now 23 == slice_index other.now 23) }
{
    let first = one.bytes();
    let second = other.bytes();
    first[15] == second[15] && first[23] == second[23]
}

/// Whether two GUIDs are the same. Most that aren't are told by two of their bytes.
fn is_guid(one: &Guid, other: &Guid) -> bool
    ensures { result ≡ bytes_eq one.now other.now }
{
    may_be(one, other) && *one == *other
}

/// The record of a slot, where it counts and is that of this element of an array.
fn held_at<'a>(
    notes: Option<&'a Notes>,
    place: usize,
    slot: &'a RecordSlot,
    array: &Guid,
    index: usize,
) -> Option<HeldRecord<'a>>
    ensures { result ≡ held_at (option_copied notes.entry) array.now index place slot.now }
{
    let element = element_of(slot)?;
    if is_guid(&element.array, array) && usize::from(element.index) == index {
        Some(HeldRecord {
            element,
            note: note_at(notes, place),
        })
    } else {
        None
    }
}

/// The note of that record.
fn note_of_slot<'a>(
    notes: Option<&'a Notes>,
    place: usize,
    slot: &'a RecordSlot,
    array: &Guid,
    index: usize,
) -> Option<&'a SlotNote>
    ensures { option_copied result ≡ option_and_then (λ held. held.note) (held_at (option_copied notes.entry) array.now index place slot.now) }
{
    match held_at(notes, place, slot, array, index) {
        Some(held) => held.note,
        None => None,
    }
}

/// The record that the slots of one copy hold of an element of an array.
pub(crate) fn find_held<'a>(
    notes: Option<&'a Notes>,
    slots: &'a [RecordSlot],
    array: &Guid,
    index: usize,
) -> Option<HeldRecord<'a>>
    ensures { result ≡ find_held array.now index (held_from (option_copied notes.entry) 0 slots.now) }
{
    for (place, slot) in slots.iter().enumerate() {
        if let Some(held) = held_at(notes, place, slot, array, index) {
            return Some(held);
        }
    }
    None
}

/// The first note of a record that the slots of one copy hold of an element of an array.
pub(crate) fn find_note<'a>(
    notes: Option<&'a Notes>,
    slots: &'a [RecordSlot],
    array: &Guid,
    index: usize,
) -> Option<&'a SlotNote>
    ensures { option_copied result ≡ find_note array.now index (held_from (option_copied notes.entry) 0 slots.now) }
{
    for (place, slot) in slots.iter().enumerate() {
        if let Some(note) = note_of_slot(notes, place, slot, array, index) {
            return Some(note);
        }
    }
    None
}
