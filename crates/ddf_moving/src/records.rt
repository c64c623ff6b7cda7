//! The configuration records of a disk that is moved.
ghost use Rattle.std.specs.Prelude.{◌≡◌, ◌≤◌, false, length, IfOk};
ghost use Rattle.ddf_header.specs.Geometry.{IsSound};
ghost use Rattle.ddf_config_records.specs.declared.slot.RecordSlot.TheVariants as slots;
ghost use Rattle.ddf_config_records.specs.Building.{spare_entries};
ghost use Rattle.ddf_config_records.specs.Elements.{HasRoom, record_size};
ghost use Rattle.ddf_config_records.specs.NoteRecords.{is_named};
ghost use Rattle.ddf_config_records.specs.Slots.{DoFit, FitsSlot};
ghost use Rattle.ddf_moving.specs.Copies.{moved_element, moved_rest, moved_slot, moved_slot_at, moved_slots, moved_spare, slot_if, unused_slot};
ghost use Rattle.ddf_moving.specs.Numbers.{same_records};

use crate::numbers::same_records;
use arrayvec::ArrayVec;
use ddf_bytes::{Guid, NoMemory, Seq};
use ddf_config_records::layout::NOTES_NAME_AT;
use ddf_config_records::{Element, Place, RecordSlot, SpareRecord, record_size, spare_entries};
use ddf_header::Geometry;
use std::alloc::Global;

/// The name of a notes record (profile).
const NOTES: &[u8; 8] = b"RDDFNOTE";

/// The unread bytes of a record in one of so many bytes: those of its first sector, and FF behind them.
fn moved_rest(alloc: Global, rest: &[u8], size: usize) -> Result<Seq<u8>, NoMemory>
    ensures { IfOk result (λ moved. moved ≡ moved_rest size rest.now) }
{
    let mut moved = Vec::from_slice(alloc, rest)?;
    moved.truncate(512);
    moved.resize(size, 0xFF)?;
    Ok(Seq::new(moved))
}

fn second_members(members: &[Place]) -> ArrayVec<Place, 64>
    requires { length members.now ≤ 64 }
    ensures { result.items ≡ members.now }
{
    let mut second = ArrayVec::new();
    for member in members {
        second.push(*member);
    }
    second
}

/// The element with other unread bytes.
fn element_with(element: &Element, rest: Seq<u8>) -> Element
    ensures { result ≡ record element.now { rest = rest } }
{
    Element {
        array: element.array,
        timestamp: element.timestamp,
        sequence: element.sequence,
        strip: element.strip,
        level: element.level,
        qualifier: element.qualifier,
        elements: element.elements,
        index: element.index,
        secondary: element.secondary,
        blocks: element.blocks,
        size: element.size,
        block_size: element.block_size,
        spares: element.spares,
        members: second_members(element.members.as_slice()),
        rest,
    }
}

/// An element in a record of another geometry, which has room for its members.
fn moved_element(alloc: Global, geometry: &Geometry, element: &Element) -> Result<Element, NoMemory>
    requires room { HasRoom geometry.now }
    requires few { length element.now.members ≤ geometry.now.max_members }
    ensures { IfOk result (λ moved. moved ≡ moved_element geometry.now element.now) }
{
    let rest = moved_rest(alloc, element.rest.items(), record_size(geometry))?;
    let bytes = element_with(element, rest);
    let fields = element_with(element, Seq::new(Vec::new(alloc)));
    fields.over(alloc, geometry, &bytes)
}

/// The spare record with other unread bytes.
fn spare_with(alloc: Global, spare: &SpareRecord, rest: Seq<u8>) -> Result<SpareRecord, NoMemory>
    ensures { IfOk result (λ second. second ≡ record spare.now { rest = rest }) }
{
    let arrays: Vec<Guid> = Vec::from_slice(alloc, spare.arrays.items())?;
    Ok(SpareRecord {
        timestamp: spare.timestamp,
        kind: spare.kind,
        arrays: Seq::new(arrays),
        rest,
    })
}

/// A spare in a record of another geometry, which has room for its arrays.
fn moved_spare(
    alloc: Global,
    geometry: &Geometry,
    spare: &SpareRecord,
) -> Result<SpareRecord, NoMemory>
    requires sound { IsSound geometry.now }
    requires few { length spare.now.arrays ≤ spare_entries geometry.now }
    ensures { IfOk result (λ moved. moved ≡ moved_spare geometry.now spare.now) }
{
    let rest = moved_rest(alloc, spare.rest.items(), record_size(geometry))?;
    let bytes = spare_with(alloc, spare, rest)?;
    let fields = spare_with(alloc, spare, Seq::new(Vec::new(alloc)))?;
    fields.over(alloc, geometry, Some(&bytes))
}

/// Whether a vendor's record has the name of notes.
#[tactic(auto, unfolding(ddf_config_records::specs::NoteRecords::is_named))]
fn is_named(rest: &[u8]) -> bool
    requires { 512 ≤ length rest.now }
    ensures { result ≡ is_named rest.now }
{
    &rest[NOTES_NAME_AT..NOTES_NAME_AT + 8] == NOTES.as_slice()
}

/// A slot of FF.
fn unused_slot(alloc: Global, geometry: &Geometry) -> Result<RecordSlot, NoMemory>
    ensures { IfOk result (λ slot. slot ≡ unused_slot geometry.now) }
{
    let bytes = vec![in alloc; 0xFF; record_size(geometry)]?;
    Ok(RecordSlot::Unused(Seq::new(bytes)))
}

/// A slot among records of another geometry.
#[tactic(auto, unfolding(ddf_config_records::specs::Slots::FitsSlot))]
fn moved_slot(
    alloc: Global,
    old: &Geometry,
    like: &Geometry,
    slot: &RecordSlot,
) -> Result<RecordSlot, NoMemory>
    requires old { IsSound old.now }
    requires sound { IsSound like.now }
    requires fits { FitsSlot old.now slot.now }
    ensures { IfOk result (λ moved. moved ≡ moved_slot like.now (same_records old.now like.now) slot.now) }
{
    match slot {
        RecordSlot::Element(element) => element_slot(alloc, like, element),
        RecordSlot::Spare(spare) => spare_slot(alloc, like, spare),
        RecordSlot::Vendor(_, rest) => {
            let stays = same_records(old, like) && !is_named(rest.items());
            slot_if(alloc, like, stays, slot)
        }
        RecordSlot::Unread(_, _) => slot_if(alloc, like, same_records(old, like), slot),
        RecordSlot::Copied(_) | RecordSlot::Notes(_) | RecordSlot::Unused(_) => {
            unused_slot(alloc, like)
        }
    }
}

/// The slot of an element, unused where a record has no room for its members.
fn element_slot(
    alloc: Global,
    geometry: &Geometry,
    element: &Element,
) -> Result<RecordSlot, NoMemory>
    requires { HasRoom geometry.now }
    ensures { IfOk result (λ moved. moved ≡ moved_slot geometry.now false (slots.Element element.now)) }
{
    if element.members.len() > usize::from(geometry.max_members) {
        return unused_slot(alloc, geometry);
    }
    let element = moved_element(alloc, geometry, element)?;
    Ok(RecordSlot::Element(element))
}

/// The slot of a spare record, unused where a record has no room for its arrays.
fn spare_slot(
    alloc: Global,
    geometry: &Geometry,
    spare: &SpareRecord,
) -> Result<RecordSlot, NoMemory>
    requires { IsSound geometry.now }
    ensures { IfOk result (λ moved. moved ≡ moved_slot geometry.now false (slots.Spare spare.now)) }
{
    if spare.arrays.items().len() > spare_entries(geometry) {
        return unused_slot(alloc, geometry);
    }
    let spare = moved_spare(alloc, geometry, spare)?;
    Ok(RecordSlot::Spare(spare))
}

/// A slot as it is where it stays, and else an unused one.
fn slot_if(
    alloc: Global,
    geometry: &Geometry,
    stays: bool,
    slot: &RecordSlot,
) -> Result<RecordSlot, NoMemory>
    ensures { IfOk result (λ kept. kept ≡ slot_if geometry.now stays slot.now) }
{
    if stays {
        slot.duplicate(alloc)
    } else {
        unused_slot(alloc, geometry)
    }
}

/// A slot by its place, unused past the end.
fn moved_slot_at(
    alloc: Global,
    old: &Geometry,
    like: &Geometry,
    slots: &[RecordSlot],
    place: usize,
) -> Result<RecordSlot, NoMemory>
    requires old { IsSound old.now }
    requires sound { IsSound like.now }
    requires fits { DoFit old.now slots.now }
    ensures { IfOk result (λ moved. moved ≡ moved_slot_at old.now like.now slots.now place) }
{
    match slots.get(place) {
        Some(slot) => moved_slot(alloc, old, like, slot),
        None => unused_slot(alloc, like),
    }
}

/// So many slots among records of another geometry.
pub(crate) fn moved_slots(
    alloc: Global,
    old: &Geometry,
    like: &Geometry,
    count: usize,
    slots: &[RecordSlot],
) -> Result<Vec<RecordSlot>, NoMemory>
    requires old { IsSound old.now }
    requires sound { IsSound like.now }
    requires fits { DoFit old.now slots.now }
    ensures { IfOk result (λ all. all.items ≡ moved_slots old.now like.now count slots.now) }
{
    let mut all = Vec::with_capacity(alloc, count)?;
    for place in 0..count {
        all.push(moved_slot_at(alloc, old, like, slots, place)?)?;
    }
    Ok(all)
}
