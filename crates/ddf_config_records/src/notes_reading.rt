//! Notes, read. Each byte of a record has to be as it is written, or the record isn't notes: half understood, they would call a position in
//! sync that isn't. docs/FORMAT.md#notes-record
ghost use Rattle.std.specs.Prelude.{◌≡◌, ◌+◌, ◌*◌, ◌/◌, ◌≤◌, ◌<◌, ◌==◌, length, IfOk, IsTrue};
ghost use Rattle.std.specs.List.{list_all, range_with_len};
ghost use Rattle.ddf_config_records.specs.declared.layout.TheConstants.{NOTE_BITS_AT};
ghost use Rattle.ddf_config_records.specs.NoteRecords.{
  has_numbers,
  is_headed,
  is_named,
  is_note,
  is_notes,
  note_at,
  note_place,
  note_size,
  notes_at,
  notes_of_slots,
};

use crate::bit_set::positions;
use crate::layout;
use crate::notes::{Notes, SlotNote};
use ddf_bytes::{NoMemory, Seq, be16, be32, be64};
use ddf_seal::guid_at;
use std::alloc::Global;

/// Whether a vendor's record is notes, in a section of so many slots where the geometry allows so many members (profile).
#[tactic(auto, unfolding(crate::specs::NoteRecords::is_notes))]
pub(crate) fn is_notes(bytes: &[u8], count: usize, most: u16) -> bool
    requires { 512 ≤ length bytes.now }
    ensures exact { result ≡ is_notes most count bytes.now }
    ensures small { IsTrue result → count < 65536 }
    ensures room { IsTrue result → note_place most count ≤ length bytes.now }
{
    if !is_headed(bytes, count, most) {
        return false;
    }
    let end = note_place(count, most);
    end <= bytes.len() && are_notes(bytes, count, most) && is_filled(&bytes[end..])
}

fn is_headed(bytes: &[u8], count: usize, most: u16) -> bool
    requires { 512 ≤ length bytes.now }
    ensures headed { result ≡ is_headed most count bytes.now }
    ensures small { IsTrue result → count < 65536 }
{
    is_named(bytes)
        && has_numbers(bytes, count, most)
        && are_zeros(&bytes[layout::NOTES_ZEROS_AT..layout::NOTES_AT])
}

#[tactic(auto, unfolding(crate::specs::NoteRecords::is_named))]
fn is_named(bytes: &[u8]) -> bool
    requires { 512 ≤ length bytes.now }
    ensures { result ≡ is_named bytes.now }
{
    &bytes[layout::NOTES_NAME_AT..layout::NOTES_NAME_AT + 8] == layout::NOTES.as_slice()
}

#[tactic(auto, unfolding(crate::specs::NoteRecords::has_numbers))]
fn has_numbers(bytes: &[u8], count: usize, most: u16) -> bool
    requires { 512 ≤ length bytes.now }
    ensures exact { result ≡ has_numbers most count bytes.now }
    ensures small { IsTrue result → count < 65536 }
{
    let slots = usize::from(be16(bytes, layout::NOTES_SLOTS_AT));
    let members = be16(bytes, layout::NOTES_MEMBERS_AT);
    slots == count && members == most
}

fn are_zeros(bytes: &[u8]) -> bool
    ensures { result ≡ list_all (λ byte. byte == 0) bytes.now }
{
    bytes.iter().all(|byte| *byte == 0)
}

/// Where the note of a slot begins.
pub(crate) fn note_place(slot: usize, most: u16) -> usize
    requires { slot < 65536 }
    ensures { result ≡ note_place most slot }
{
    layout::NOTES_AT + slot * note_size(most)
}

/// The bytes of a note.
pub(crate) fn note_size(most: u16) -> usize
    ensures { result ≡ note_size most }
{
    layout::NOTE_BITS_AT + usize::from(most) / 8
}

fn are_notes(bytes: &[u8], count: usize, most: u16) -> bool
    requires small { count < 65536 }
    requires whole { note_place most count ≤ length bytes.now }
    ensures { result
        ≡ list_all (λ slot. is_note bytes.now (note_place most slot)) (range_with_len 0 count) }
{
    (0..count).all(|slot| is_note(bytes, note_place(slot, most)))
}

fn is_note(bytes: &[u8], at: usize) -> bool
    requires { at + NOTE_BITS_AT ≤ length bytes.now }
    ensures { result ≡ is_note bytes.now at }
{
    bytes[at] <= 1 && bytes[at + layout::NOTE_ZERO_AT] == 0
}

fn is_filled(bytes: &[u8]) -> bool
    ensures { result ≡ list_all (λ byte. byte == 255) bytes.now }
{
    bytes.iter().all(|byte| *byte == 0xFF)
}

/// The notes of a record that is notes.
pub(crate) fn read_notes(
    alloc: Global,
    bytes: &[u8],
    count: usize,
    most: u16,
) -> Result<Notes, NoMemory>
    requires small { count < 65536 }
    requires bits { 8 * (most / 8) ≡ most }
    requires whole { note_place most count ≤ length bytes.now }
    ensures { IfOk result (λ notes. notes ≡ notes_at most count bytes.now) }
{
    let slots = slot_notes(alloc, bytes, count, most)?;
    Ok(Notes {
        group: guid_at(bytes, layout::NOTES_GROUP_AT),
        sequence: be32(bytes, layout::NOTES_SEQUENCE_AT),
        slots: Seq::new(slots),
    })
}

fn slot_notes(
    alloc: Global,
    bytes: &[u8],
    count: usize,
    most: u16,
) -> Result<Vec<SlotNote>, NoMemory>
    requires small { count < 65536 }
    requires bits { 8 * (most / 8) ≡ most }
    requires whole { note_place most count ≤ length bytes.now }
    ensures { IfOk result (λ notes. notes.items ≡ notes_of_slots most count bytes.now) }
{
    let mut notes = Vec::with_capacity(alloc, count)?;
    for slot in 0..count {
        let note = read_note(alloc, bytes, note_place(slot, most), most)?;
        notes.push(note)?;
    }
    Ok(notes)
}

#[tactic(auto, unfolding(crate::specs::NoteRecords::note_at))]
fn read_note(alloc: Global, bytes: &[u8], at: usize, most: u16) -> Result<SlotNote, NoMemory>
    requires bits { 8 * (most / 8) ≡ most }
    requires whole { at + note_size most ≤ length bytes.now }
    ensures { IfOk result (λ note. note ≡ note_at most bytes.now at) }
{
    let bits = at + layout::NOTE_BITS_AT;
    let out = positions(alloc, &bytes[bits..bits + usize::from(most) / 8], most)?;
    Ok(SlotNote {
        copied: bytes[at] == 1,
        position: be16(bytes, at + layout::NOTE_POSITION_AT),
        stand_in: be32(bytes, at + layout::NOTE_STAND_IN_AT),
        row: be64(bytes, at + layout::NOTE_ROW_AT),
        out: Seq::new(out),
    })
}
