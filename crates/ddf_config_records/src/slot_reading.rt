//! One slot of the configuration records, read by its signature. Notes count only under the header that they were written with: older ones
//! would speak of positions that have changed since. docs/FORMAT.md#copies-of-element-records
ghost use Rattle.std.specs.Prelude.{◌≡◌, ◌+◌, ◌*◌, ◌/◌, ◌≤◌, length, IfOk};
ghost use Rattle.std.specs.Int.{w32};
ghost use Rattle.ddf_bytes.specs.Bytes.{number_at};
ghost use Rattle.ddf_config_records.specs.declared.layout.TheConstants.{REFERENCES_AT};
ghost use Rattle.ddf_config_records.specs.NoteRecords.{is_notes};
ghost use Rattle.ddf_config_records.specs.Slots.{element_slot, slot_at, valid_at, vendor_slot};
ghost use Rattle.ddf_config_records.specs.Elements.{element_fault_at};

use crate::element_reading::{element_fault, read_element};
use crate::layout;
use crate::notes::Notes;
use crate::notes_reading::{is_notes, read_notes};
use crate::slot::RecordSlot;
use crate::spare_reading::read_spare;
use crate::vendor::read_vendor;
use ddf_bytes::{Guid, NoMemory, Seq, be32};
use ddf_seal::guid_at;
use std::alloc::Global;

/// What stands in a sealed slot, in a section of so many slots, where valid notes do or don't list it as a copy.
#[tactic(auto, unfolding(crate::specs::Slots::slot_at))]
pub(crate) fn read_slot(
    alloc: Global,
    bytes: &[u8],
    count: usize,
    most: u16,
    listed: bool,
) -> Result<RecordSlot, NoMemory>
    requires whole { REFERENCES_AT + 12 * most ≤ length bytes.now }
    requires bits { 8 * (most / 8) ≡ most }
    ensures { IfOk result (λ slot. slot ≡ slot_at most count listed bytes.now) }
{
    match be32(bytes, 0) {
        layout::ELEMENT_SIGNATURE => read_element_slot(alloc, bytes, most),
        layout::VENDOR_SIGNATURE => read_vendor_slot(alloc, bytes, count, most, listed),
        layout::SPARE_SIGNATURE => {
            let spare = read_spare(alloc, bytes)?;
            Ok(RecordSlot::Spare(spare))
        }
        _ => {
            let kept = Vec::from_slice(alloc, bytes)?;
            Ok(RecordSlot::Unused(Seq::new(kept)))
        }
    }
}

fn read_element_slot(alloc: Global, bytes: &[u8], most: u16) -> Result<RecordSlot, NoMemory>
    requires { REFERENCES_AT + 12 * most ≤ length bytes.now }
    ensures { IfOk result (λ slot. slot ≡ element_slot most bytes.now (element_fault_at most bytes.now)) }
{
    match element_fault(bytes, most) {
        Some(fault) => {
            let kept = Vec::from_slice(alloc, bytes)?;
            Ok(RecordSlot::Unread(fault, Seq::new(kept)))
        }
        None => {
            let element = read_element(alloc, bytes, most)?;
            Ok(RecordSlot::Element(element))
        }
    }
}

fn read_vendor_slot(
    alloc: Global,
    bytes: &[u8],
    count: usize,
    most: u16,
    listed: bool,
) -> Result<RecordSlot, NoMemory>
    requires whole { REFERENCES_AT + 12 * most ≤ length bytes.now }
    requires bits { 8 * (most / 8) ≡ most }
    ensures { IfOk result (λ slot. slot ≡ vendor_slot most count listed bytes.now) }
{
    if is_notes(bytes, count, most) {
        let notes = read_notes(alloc, bytes, count, most)?;
        return Ok(RecordSlot::Notes(notes));
    }
    match element_fault(bytes, most) {
        None if listed => {
            let element = read_element(alloc, bytes, most)?;
            Ok(RecordSlot::Copied(element))
        }
        _ => {
            let rest = read_vendor(alloc, bytes)?;
            Ok(RecordSlot::Vendor(guid_at(bytes, layout::VENDOR_GUID_AT), rest))
        }
    }
}

/// The valid notes of a slot, if it has some: those of the header with this group and sequence (profile).
#[tactic(auto, unfolding(crate::specs::Slots::valid_at))]
pub(crate) fn valid_notes(
    alloc: Global,
    bytes: &[u8],
    count: usize,
    most: u16,
    group: &Guid,
    sequence: u32,
) -> Result<Option<Notes>, NoMemory>
    requires long { 512 ≤ length bytes.now }
    requires bits { 8 * (most / 8) ≡ most }
    ensures { IfOk result (λ notes. notes ≡ valid_at most count group.now sequence bytes.now) }
{
    if be32(bytes, 0) != layout::VENDOR_SIGNATURE || !is_notes(bytes, count, most) {
        return Ok(None);
    }
    let own = &bytes[layout::NOTES_GROUP_AT..layout::NOTES_GROUP_AT + 24];
    if own != group.bytes().as_slice() || be32(bytes, layout::NOTES_SEQUENCE_AT) != sequence {
        return Ok(None);
    }
    let notes = read_notes(alloc, bytes, count, most)?;
    Ok(Some(notes))
}
