//! Configuration records, read: each slot of the section as what it is. With a known signature and a wrong seal in any slot the copy isn't
//! whole, for an element of an array may be lost there. docs/FORMAT.md#configuration-records
ghost use Rattle.std.specs.Prelude.{◌≡◌, ◌↔◌, ◌⊎◌, ◌+◌, ◌*◌, ◌<◌, ◌≤◌, List, length, Some, Ok, Err, IfOk, IfErr};
ghost use Rattle.ddf_bytes.specs.Bytes.{bytes_at};
ghost use Rattle.ddf_header.specs.Geometry.{IsSound};
ghost use Rattle.ddf_config_records.specs.declared.fault.SlotFault.{SlotFault};
ghost use Rattle.ddf_config_records.specs.declared.slot.RecordSlot.{RecordSlot};
ghost use Rattle.ddf_config_records.specs.Elements.{HasRoom, record_size};
ghost use Rattle.ddf_config_records.specs.Slots.{
  AreSealed,
  AreSlotsOf,
  CanBeSlots,
  DoFit,
  decoded_slots,
  is_known,
  lists,
  notes_in,
  seal_fault,
  slot_count,
  slot_fault,
  slots_at,
};

use crate::fault::SlotFault;
use crate::layout;
use crate::notes::Notes;
use crate::slot::RecordSlot;
use crate::slot_reading::{read_slot, valid_notes};
use ddf_bytes::{Guid, NoMemory, be32};
use ddf_header::Geometry;
use ddf_seal::check;
use std::alloc::Global;

/// What stands in each slot of the configuration records, as many as the section holds whole. The geometry, the group and
/// the sequence are those of the copy's header: notes count where group and sequence are theirs, those of the lowest slot
/// first (profile). The answer is `SlotFault::Seal` exactly where a slot of a known signature isn't sealed, the first such
/// slot. Memory is taken in proportion to the section.
pub fn decode_slots(
    alloc: Global,
    section: &[u8],
    geometry: &Geometry,
    group: &Guid,
    sequence: u32,
) -> Result<Vec<RecordSlot>, SlotFault>
    requires { IsSound geometry.now }
    ensures exact { IfOk result (λ slots.
        decoded_slots geometry.now group.now sequence section.now ≡ Ok slots.items) }
    ensures fault { IfErr result (λ fault. (fault ≡ SlotFault.Memory)
        ⊎ (decoded_slots geometry.now group.now sequence section.now ≡ Err fault)) }
    ensures first { (fault : SlotFault) → seal_fault geometry.now section.now ≡ Some fault → result ≡ Err fault }

    // Each slot of a known signature is sealed, and where this holds only memory can be wanting.
    ensures sealed { IfOk result (λ _. AreSealed geometry.now section.now) }
    ensures whole { AreSealed geometry.now section.now → IfErr result (λ fault. fault ≡ SlotFault.Memory) }

    // The slots are the value of the section, and the only one.
    ensures ok { IfOk result (λ slots. (list : List RecordSlot)
        → (slots.items ≡ list) ↔ AreSlotsOf geometry.now group.now sequence list section.now) }
    ensures writable { IfOk result (λ slots. CanBeSlots geometry.now group.now sequence slots.items) }
    ensures fits { IfOk result (λ slots. DoFit geometry.now slots.items) }
{
    read(alloc, section, geometry, group, sequence)
}

fn read(
    alloc: Global,
    section: &[u8],
    geometry: &Geometry,
    group: &Guid,
    sequence: u32,
) -> Result<Vec<RecordSlot>, SlotFault>
    requires { HasRoom geometry.now }
    ensures exact { IfOk result (λ slots.
        decoded_slots geometry.now group.now sequence section.now ≡ Ok slots.items) }
    ensures fault { IfErr result (λ fault. (fault ≡ SlotFault.Memory)
        ⊎ (decoded_slots geometry.now group.now sequence section.now ≡ Err fault)) }
    ensures first { (fault : SlotFault) → seal_fault geometry.now section.now ≡ Some fault → result ≡ Err fault }
{
    if let Some(fault) = seal_fault(section, geometry) {
        return Err(fault);
    }
    let notes = find_notes(alloc, section, geometry, group, sequence)?;
    let slots = read_slots(alloc, section, geometry, &notes)?;
    Ok(slots)
}

/// The bytes of each record of the configuration records (SNIA DDF 2.0).
pub fn record_size(geometry: &Geometry) -> usize
    ensures { result ≡ record_size geometry.now }
{
    512 * usize::from(geometry.record_length)
}

/// The bytes of a slot.
fn slot_of(section: &[u8], size: usize, slot: usize) -> &[u8]
    requires { slot * size + size ≤ length section.now }
    ensures { result.now ≡ bytes_at section.now (slot * size) size }
{
    &section[slot * size..slot * size + size]
}

/// The first slot of a known signature that isn't sealed.
#[tactic(auto, unfolding(crate::specs::Slots::seal_fault))]
fn seal_fault(section: &[u8], geometry: &Geometry) -> Option<SlotFault>
    requires { HasRoom geometry.now }
    ensures { result ≡ seal_fault geometry.now section.now }
{
    let size = record_size(geometry);
    for slot in 0..section.len() / size {
        if let Some(fault) = slot_fault(slot_of(section, size, slot), slot) {
            return Some(fault);
        }
    }
    None
}

#[tactic(auto, unfolding(crate::specs::Slots::slot_fault))]
fn slot_fault(bytes: &[u8], slot: usize) -> Option<SlotFault>
    requires { 8 ≤ length bytes.now }
    ensures { result ≡ slot_fault slot bytes.now }
{
    let signature = be32(bytes, 0);
    if !is_known(signature) {
        return None;
    }
    match check(bytes, signature) {
        Ok(()) => None,
        Err(fault) => Some(SlotFault::Seal { slot, fault }),
    }
}

fn is_known(signature: u32) -> bool
    ensures { result ≡ is_known signature }
{
    matches!(
        signature,
        layout::ELEMENT_SIGNATURE | layout::VENDOR_SIGNATURE | layout::SPARE_SIGNATURE
    )
}

/// The valid notes of the lowest slot that has some.
#[tactic(auto, unfolding(crate::specs::Slots::notes_in))]
fn find_notes(
    alloc: Global,
    section: &[u8],
    geometry: &Geometry,
    group: &Guid,
    sequence: u32,
) -> Result<Option<Notes>, NoMemory>
    requires { HasRoom geometry.now }
    ensures { IfOk result (λ notes. notes ≡ notes_in geometry.now group.now sequence section.now) }
{
    let size = record_size(geometry);
    let count = section.len() / size;
    let most = geometry.max_members;
    for slot in 0..count {
        let own = slot_of(section, size, slot);
        let found = valid_notes(alloc, own, count, most, group, sequence)?;
        if let Some(notes) = found {
            return Ok(Some(notes));
        }
    }
    Ok(None)
}

#[tactic(auto, unfolding(crate::specs::Slots::slots_at))]
fn read_slots(
    alloc: Global,
    section: &[u8],
    geometry: &Geometry,
    notes: &Option<Notes>,
) -> Result<Vec<RecordSlot>, NoMemory>
    requires { HasRoom geometry.now }
    ensures { IfOk result (λ slots. slots.items ≡ slots_at geometry.now notes.now section.now) }
{
    let size = record_size(geometry);
    let count = section.len() / size;
    let most = geometry.max_members;
    let mut slots = Vec::with_capacity(alloc, count)?;
    for slot in 0..count {
        let bytes = slot_of(section, size, slot);
        let read = read_slot(alloc, bytes, count, most, lists(notes, slot))?;
        slots.push(read)?;
    }
    Ok(slots)
}

/// Whether notes list a slot as a copy.
fn lists(notes: &Option<Notes>, slot: usize) -> bool
    ensures { result ≡ lists notes.now slot }
{
    match notes {
        Some(notes) => match notes.slots.items().get(slot) {
            Some(note) => note.copied,
            None => false,
        },
        None => false,
    }
}
