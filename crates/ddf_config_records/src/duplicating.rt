//! Second values of slots.
ghost use Rattle.std.specs.Prelude.{◌≡◌, ◌≤◌, length, IfOk};

use crate::element::Element;
use crate::notes::{Notes, SlotNote};
use crate::place::Place;
use crate::slot::RecordSlot;
use crate::spare::SpareRecord;
use arrayvec::ArrayVec;
use ddf_bytes::{Guid, NoMemory, Seq};
use std::alloc::Global;

impl RecordSlot {
    /// A second value that equals this one.
    pub fn duplicate(&self, alloc: Global) -> Result<RecordSlot, NoMemory>
        ensures { IfOk result (λ slot. slot ≡ self.now) }
    {
        match self {
            RecordSlot::Element(element) => {
                let element = second_element(alloc, element)?;
                Ok(RecordSlot::Element(element))
            }
            RecordSlot::Copied(element) => {
                let element = second_element(alloc, element)?;
                Ok(RecordSlot::Copied(element))
            }
            RecordSlot::Spare(spare) => {
                let spare = second_spare(alloc, spare)?;
                Ok(RecordSlot::Spare(spare))
            }
            RecordSlot::Notes(notes) => {
                let notes = second_notes(alloc, notes)?;
                Ok(RecordSlot::Notes(notes))
            }
            RecordSlot::Vendor(guid, rest) => {
                let rest = second_bytes(alloc, rest)?;
                Ok(RecordSlot::Vendor(*guid, rest))
            }
            RecordSlot::Unread(fault, kept) => {
                let kept = second_bytes(alloc, kept)?;
                Ok(RecordSlot::Unread(*fault, kept))
            }
            RecordSlot::Unused(kept) => {
                let kept = second_bytes(alloc, kept)?;
                Ok(RecordSlot::Unused(kept))
            }
        }
    }
}

fn second_element(alloc: Global, element: &Element) -> Result<Element, NoMemory>
    ensures { IfOk result (λ second. second ≡ element.now) }
{
    let rest = second_bytes(alloc, &element.rest)?;
    Ok(Element {
        array: element.array,
        timestamp: element.timestamp,
        sequence: element.sequence,
        strip: element.strip,
        level: element.level,
        qualifier: element.qualifier,
        elements: element.elements,
        index: element.index,
        secondary: element.secondary,
        blocks: element.blocks,
        size: element.size,
        block_size: element.block_size,
        spares: element.spares,
        members: second_members(element.members.as_slice()),
        rest,
    })
}

fn second_members(members: &[Place]) -> ArrayVec<Place, 64>
    requires { length members.now ≤ 64 }
    ensures { result.items ≡ members.now }
{
    let mut second = ArrayVec::new();
    for member in members {
        second.push(*member);
    }
    second
}

fn second_spare(alloc: Global, spare: &SpareRecord) -> Result<SpareRecord, NoMemory>
    ensures { IfOk result (λ second. second ≡ spare.now) }
{
    let arrays: Vec<Guid> = Vec::from_slice(alloc, spare.arrays.items())?;
    let rest = second_bytes(alloc, &spare.rest)?;
    Ok(SpareRecord {
        timestamp: spare.timestamp,
        kind: spare.kind,
        arrays: Seq::new(arrays),
        rest,
    })
}

fn second_notes(alloc: Global, notes: &Notes) -> Result<Notes, NoMemory>
    ensures { IfOk result (λ second. second ≡ notes.now) }
{
    let slots = second_slots(alloc, notes.slots.items())?;
    Ok(Notes {
        group: notes.group,
        sequence: notes.sequence,
        slots: Seq::new(slots),
    })
}

fn second_slots(alloc: Global, slots: &[SlotNote]) -> Result<Vec<SlotNote>, NoMemory>
    ensures { IfOk result (λ second. second.items ≡ slots.now) }
{
    let mut second = Vec::with_capacity(alloc, slots.len())?;
    for note in slots {
        let copy = second_note(alloc, note)?;
        second.push(copy)?;
    }
    Ok(second)
}

fn second_note(alloc: Global, note: &SlotNote) -> Result<SlotNote, NoMemory>
    ensures { IfOk result (λ second. second ≡ note.now) }
{
    let out = Vec::from_slice(alloc, note.out.items())?;
    Ok(SlotNote {
        copied: note.copied,
        position: note.position,
        stand_in: note.stand_in,
        row: note.row,
        out: Seq::new(out),
    })
}

fn second_bytes(alloc: Global, bytes: &Seq<u8>) -> Result<Seq<u8>, NoMemory>
    ensures { IfOk result (λ second. second ≡ bytes.now) }
{
    let second = Vec::from_slice(alloc, bytes.items())?;
    Ok(Seq::new(second))
}
