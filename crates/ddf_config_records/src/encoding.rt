//! Configuration records, written: what was read and isn't changed goes back byte by byte, so another controller finds what it wrote.
//! docs/FORMAT.md#slots-that-are-read-and-written
ghost use Rattle.std.specs.Prelude.{◌≡◌, ◌+◌, ◌*◌, ◌<◌, ◌≤◌, ◌++◌, ℕ, List, length, take, drop, slice_get, Some};
ghost use Rattle.ddf_header.specs.Geometry.{IsSound};
ghost use Rattle.ddf_config_records.specs.declared.slot.RecordSlot.{RecordSlot};
ghost use Rattle.ddf_config_records.specs.Elements.{HasRoom, record_size};
ghost use Rattle.ddf_config_records.specs.Slots.{
  AreSlotsOf,
  CanBeSlots,
  DoFit,
  FitsSlot,
  slot_count,
  slot_written,
  slots_written,
};

use crate::decoding::record_size;
use crate::element_writing::write_element;
use crate::layout;
use crate::notes_writing::write_notes;
use crate::slot::RecordSlot;
use crate::spare_writing::write_spare;
use crate::vendor::write_vendor;
use ddf_header::Geometry;

/// Writes slots into the section of the configuration records: each field in its place, all other bytes as they were read,
/// and the seal. Slots that were decoded give their bytes back. The bytes behind the last whole slot stay.
pub fn encode_slots(slots: &[RecordSlot], geometry: &Geometry, into: &mut [u8])
    requires sound { IsSound geometry.now }
    requires counted { length slots.now ≡ slot_count geometry.now into.old }
    requires fits { DoFit geometry.now slots.now }
    ensures exact { into.new ≡ slots_written geometry.now slots.now
        ++ drop (length slots.now * record_size geometry.now) into.old }

    // The bytes behind the last whole slot stay.
    ensures kept { drop (length slots.now * record_size geometry.now) into.new
        ≡ drop (length slots.now * record_size geometry.now) into.old }

    // What was decoded is given back.
    // promise:unread
    ensures back { (group : List ℕ) (sequence : ℕ) (section : List ℕ)
        → AreSlotsOf geometry.now group sequence slots.now section
        → take (length slots.now * record_size geometry.now) into.new
        ≡ take (length slots.now * record_size geometry.now) section }

    // Slots that can be written are the value of the section.
    ensures made { (group : List ℕ) (sequence : ℕ) → CanBeSlots geometry.now group sequence slots.now
        → AreSlotsOf geometry.now group sequence slots.now into.new }
{
    write(slots, geometry, into);
}

fn write(slots: &[RecordSlot], geometry: &Geometry, into: &mut [u8])
    requires room { HasRoom geometry.now }
    requires counted { length slots.now ≡ slot_count geometry.now into.old }
    requires fits { (index : ℕ) (slot : RecordSlot) → slice_get slots.now index ≡ Some slot
        → FitsSlot geometry.now slot }
    ensures exact { into.new ≡ slots_written geometry.now slots.now
        ++ drop (length slots.now * record_size geometry.now) into.old }
    ensures size { length (slots_written geometry.now slots.now)
        ≡ length slots.now * record_size geometry.now }
{
    let size = record_size(geometry);
    for (index, slot) in slots.iter().enumerate() {
        let start = index * size;
        write_slot(&mut into[start..start + size], slot, geometry);
    }
}

#[tactic(auto, unfolding(crate::specs::Slots::FitsSlot, crate::specs::Slots::slot_written))]
fn write_slot(into: &mut [u8], slot: &RecordSlot, geometry: &Geometry)
    requires room { HasRoom geometry.now }
    requires size { length into.old ≡ record_size geometry.now }
    requires fits { FitsSlot geometry.now slot.now }
    ensures { into.new ≡ slot_written geometry.now slot.now }
{
    let most = geometry.max_members;
    match slot {
        RecordSlot::Element(element) => {
            write_element(into, element, layout::ELEMENT_SIGNATURE, most);
        }
        RecordSlot::Copied(element) => {
            write_element(into, element, layout::VENDOR_SIGNATURE, most);
        }
        RecordSlot::Spare(spare) => write_spare(into, spare),
        RecordSlot::Notes(notes) => write_notes(into, notes, most),
        RecordSlot::Vendor(guid, rest) => write_vendor(into, guid, rest.items()),
        RecordSlot::Unread(_, kept) | RecordSlot::Unused(kept) => {
            into.copy_from_slice(kept.items());
        }
    }
}
