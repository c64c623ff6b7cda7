//! The notes after a change: which slots are copies, which positions are out of sync, how far a rebuild is. docs/FORMAT.md#notes-record
ghost use Rattle.std.specs.Prelude.{◌≡◌, ◌==◌, ◌<◌, ◌^◌, Some, find, filter, map, not, length, IfOk, IfSome};
ghost use Rattle.std.specs.List.{enumerate_from, range_with_len};
ghost use Rattle.ddf_rewrite.specs.declared.item.Item.TheVariants as items;
ghost use Rattle.ddf_rewrite.specs.Placement.{item_at};
ghost use Rattle.ddf_rewrite.specs.Notes.{no_note, note_for, note_of, notes_after};

use crate::holding::{Holding, find_holding};
use crate::item::{Item, Slotted};
use crate::placement::item_at;
use ddf_bytes::{Guid, NoMemory, Seq};
use ddf_config::{Config, ElementPlan, Position};
use ddf_config_records::{Notes, SlotNote};
use std::alloc::Global;

/// The position that is noted where none is being rebuilt.
const NO_POSITION: u16 = 0xFFFF;

/// The position that is being rebuilt, with its number.
fn rebuilt(positions: &[Position]) -> Option<(usize, Position)>
    ensures exact { result ≡ find (λ pair. not (pair.1.row == 0)) (enumerate_from 0 positions.now) }
    ensures within { IfSome result (λ pair. pair.0 < length positions.now) }
{
    positions
        .iter()
        .copied()
        .enumerate()
        .find(|(_, position)| position.row != 0)
}

/// The numbers of the positions that are out of sync.
fn out_of_sync(alloc: Global, positions: &[Position]) -> Result<Vec<u16>, NoMemory>
    requires { length positions.now < 2 ^ 16 }
    ensures { IfOk result (λ out. out.items ≡ map (λ pair. pair.0) (filter (λ pair. not pair.1.synced) (enumerate_from 0 positions.now))) }
{
    let mut out = Vec::new(alloc);
    for (number, position) in positions.iter().enumerate() {
        if !position.synced {
            out.push(number as u16)?;
        }
    }
    Ok(out)
}

/// The note of a slot that holds no element.
fn no_note(alloc: Global) -> SlotNote
    ensures { result ≡ no_note }
{
    SlotNote {
        copied: false,
        position: NO_POSITION,
        stand_in: 0,
        row: 0,
        out: Seq::new(Vec::new(alloc)),
    }
}

/// The note of a slot that holds an element.
fn note_of(alloc: Global, copied: bool, plan: &ElementPlan) -> Result<SlotNote, NoMemory>
    ensures { IfOk result (λ note. note ≡ note_of copied plan.now) }
{
    let positions = plan.positions.as_slice();
    let out = out_of_sync(alloc, positions)?;
    let (position, row) = match rebuilt(positions) {
        Some((number, position)) => (number as u16, position.row),
        None => (NO_POSITION, 0),
    };
    Ok(SlotNote {
        copied,
        position,
        stand_in: plan.stand_in,
        row,
        out: Seq::new(out),
    })
}

/// The note of the slot of an element.
fn note_of_element(
    alloc: Global,
    holdings: &[Holding],
    array: &Guid,
    index: usize,
) -> Result<SlotNote, NoMemory>
    ensures { IfOk result (λ note. note ≡ note_for holdings.now (Some (items.Element array.now index))) }
{
    match find_holding(holdings, array, index) {
        Some(holding) => note_of(alloc, holding.copied, holding.wanted.plan),
        None => Ok(no_note(alloc)),
    }
}

/// The note of the slot of an item.
fn note_of_item(alloc: Global, holdings: &[Holding], item: &Item) -> Result<SlotNote, NoMemory>
    ensures { IfOk result (λ note. note ≡ note_for holdings.now (Some item.now)) }
{
    match item {
        Item::Element(array, index) => note_of_element(alloc, holdings, array, *index),
        Item::Notes | Item::Spare => Ok(no_note(alloc)),
    }
}

/// The note of a slot, by what is placed there.
fn note_for(alloc: Global, holdings: &[Holding], item: Option<Item>) -> Result<SlotNote, NoMemory>
    ensures { IfOk result (λ note. note ≡ note_for holdings.now item) }
{
    match item {
        Some(item) => note_of_item(alloc, holdings, &item),
        None => Ok(no_note(alloc)),
    }
}

/// The notes of so many slots.
fn notes_of_slots(
    alloc: Global,
    holdings: &[Holding],
    placed: &[Slotted],
    count: usize,
) -> Result<Vec<SlotNote>, NoMemory>
    ensures { IfOk result (λ notes. notes.items ≡ map (λ slot. note_for holdings.now (item_at placed.now slot)) (range_with_len 0 count)) }
{
    let mut notes = Vec::new(alloc);
    for slot in 0..count {
        notes.push(note_for(alloc, holdings, item_at(placed, slot))?)?;
    }
    Ok(notes)
}

/// The notes of a disk with so many slots.
#[tactic(auto, unfolding(crate::specs::Notes::notes_after))]
pub(crate) fn notes_after(
    alloc: Global,
    config: &Config,
    holdings: &[Holding],
    placed: &[Slotted],
    count: usize,
) -> Result<Notes, NoMemory>
    ensures { IfOk result (λ notes. notes ≡ notes_after config.now holdings.now placed.now count) }
{
    let slots = notes_of_slots(alloc, holdings, placed, count)?;
    Ok(Notes {
        group: config.group,
        sequence: config.sequence,
        slots: Seq::new(slots),
    })
}
