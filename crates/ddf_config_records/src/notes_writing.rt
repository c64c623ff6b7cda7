//! Notes, written. docs/FORMAT.md#notes-record
ghost use Rattle.std.specs.Prelude.{◌≡◌, ◌+◌, ◌-◌, ◌*◌, ◌/◌, ◌≤◌, ◌<◌, length, replicate};
ghost use Rattle.std.specs.List.{AllByRecursion};
ghost use Rattle.ddf_seal.specs.Records.{record_bytes};
ghost use Rattle.ddf_seal.specs.Unread.{AreBytes, placed, written};
ghost use Rattle.ddf_config_records.specs.declared.layout.TheConstants.{NOTES_AT};
ghost use Rattle.ddf_config_records.specs.Bits.{AreBelow, bits_of};
ghost use Rattle.ddf_config_records.specs.Vendors.{vendor_signature};
ghost use Rattle.ddf_config_records.specs.NoteRecords.{
  all_note_fields,
  head_fields,
  note_fields,
  note_place,
  note_size,
  notes_fields,
};

use crate::bit_set::put_bits;
use crate::layout;
use crate::notes::{Notes, SlotNote};
use crate::notes_reading::note_place;
use ddf_bytes::{put16, put32, put64};
use ddf_seal::{place, seal};

/// Writes a notes record.
pub(crate) fn write_notes(into: &mut [u8], notes: &Notes, most: u16)
    requires small { length notes.now.slots < 65536 }
    requires bits { 8 * (most / 8) ≡ most }
    requires room { note_place most (length notes.now.slots) ≤ length into.old }
    requires below { AllByRecursion (λ note. AreBelow most note.out) notes.now.slots }
    ensures exact { into.new
        ≡ record_bytes vendor_signature (notes_fields most (length into.old) notes.now) (replicate (length into.old) 0) }
    ensures bytes { AreBytes into.new }
{
    into.fill(0);
    put_head(into, notes, most);
    put_notes(into, notes.slots.items(), most);
    put_filling(into, note_place(notes.slots.items().len(), most));
    seal(into, layout::VENDOR_SIGNATURE);
}

fn put_head(into: &mut [u8], notes: &Notes, most: u16)
    requires small { length notes.now.slots < 65536 }
    requires whole { NOTES_AT ≤ length into.old }
    ensures { into.new ≡ written (head_fields most notes.now) into.old }
{
    place(into, layout::NOTES_GROUP_AT, &notes.group.bytes());
    place(into, layout::NOTES_NAME_AT, layout::NOTES);
    put32(into, layout::NOTES_SEQUENCE_AT, notes.sequence);
    put16(
        into,
        layout::NOTES_SLOTS_AT,
        notes.slots.items().len() as u16,
    );
    put16(into, layout::NOTES_MEMBERS_AT, most);
    place(into, layout::NOTES_ZEROS_AT, &[0; 16]);
}

fn put_notes(into: &mut [u8], notes: &[SlotNote], most: u16)
    requires small { length notes.now < 65536 }
    requires bits { 8 * (most / 8) ≡ most }
    requires room { note_place most (length notes.now) ≤ length into.old }
    requires below { AllByRecursion (λ note. AreBelow most note.out) notes.now }
    ensures { into.new ≡ written (all_note_fields most NOTES_AT notes.now) into.old }
{
    for (slot, note) in notes.iter().enumerate() {
        put_note(into, note_place(slot, most), note, most);
    }
}

fn put_note(into: &mut [u8], at: usize, note: &SlotNote, most: u16)
    requires bits { 8 * (most / 8) ≡ most }
    requires room { at + note_size most ≤ length into.old }
    requires below { AreBelow most note.now.out }
    ensures { into.new ≡ written (note_fields most at note.now) into.old }
{
    place(into, at, &[u8::from(note.copied)]);
    place(into, at + layout::NOTE_ZERO_AT, &[0]);
    put16(into, at + layout::NOTE_POSITION_AT, note.position);
    put32(into, at + layout::NOTE_STAND_IN_AT, note.stand_in);
    put64(into, at + layout::NOTE_ROW_AT, note.row);
    put_out(into, at + layout::NOTE_BITS_AT, note.out.items(), most);
}

fn put_out(into: &mut [u8], at: usize, out: &[u16], most: u16)
    requires bits { 8 * (most / 8) ≡ most }
    requires room { at + most / 8 ≤ length into.old }
    requires below { AreBelow most out.now }
    ensures { into.new ≡ placed into.old at (bits_of (most / 8) out.now) }
{
    let end = at + usize::from(most) / 8;
    put_bits(&mut into[at..end], out);
}

/// Writes FF in all bytes from an offset on.
#[tactic(auto, unfolding(ddf_seal::specs::Unread::placed))]
fn put_filling(into: &mut [u8], at: usize)
    requires { at ≤ length into.old }
    ensures { into.new ≡ placed into.old at (replicate (length into.old - at) 255) }
{
    into[at..].fill(0xFF);
}
