//! Which record stands in which slot.
ghost use Rattle.std.specs.Prelude.{◌≡◌, ◌==◌, ◌<◌, ◌++◌, List, ℕ, Option, false, Some, filter_map, map, option_map, option_to_list, position, find, is_some, length, IfOk};
ghost use Rattle.std.specs.List.{enumerate_from, list_any};
ghost use Rattle.std.specs.Option.{option_map_or};
ghost use Rattle.ddf_config_records.specs.declared.slot.RecordSlot.{RecordSlot};
ghost use Rattle.ddf_rewrite.specs.declared.item.Item.{Item};
ghost use Rattle.ddf_rewrite.specs.declared.item.Slotted.{Slotted};
ghost use Rattle.ddf_rewrite.specs.declared.item.Item.TheVariants as items;
ghost use Rattle.ddf_view.specs.View.{spare_of};
ghost use Rattle.ddf_rewrite.specs.Placement.{free_slot, free_slots, is_notes_slot, is_others, is_slot_of, item_at, slotted_items, slot_of, stays_in, take_one, take_slots};

use crate::item::{Item, Slotted};
use ddf_bytes::{Guid, NoMemory};
use ddf_config_records::{RecordSlot, valid_notes_slot};
use ddf_view::{element_of, spare_of};
use std::alloc::Global;

/// Whether a slot holds notes of this project.
fn is_notes_slot(slot: &RecordSlot) -> bool
    ensures { result ≡ is_notes_slot slot.now }
{
    matches!(slot, RecordSlot::Notes(_))
}

/// Whether a slot holds the record of this element of an array.
fn is_slot_of(slot: &RecordSlot, array: &Guid, index: usize) -> bool
    ensures { result ≡ is_slot_of array.now index slot.now }
{
    match element_of(slot) {
        Some(element) => element.array == *array && usize::from(element.index) == index,
        None => false,
    }
}

/// Whether a slot holds a spare record.
fn has_spare(slot: &RecordSlot) -> bool
    ensures { result ≡ is_some (spare_of slot.now) }
{
    spare_of(slot).is_some()
}

/// The lowest slot that holds notes, valid or not.
fn slot_of_any_notes(slots: &[RecordSlot]) -> Option<usize>
    ensures { result ≡ position is_notes_slot slots.now }
{
    slots.iter().position(is_notes_slot)
}

/// The slot of the notes: of valid ones before others.
fn slot_of_notes(slots: &[RecordSlot], group: &Guid, sequence: u32) -> Option<usize>
    ensures { result ≡ slot_of group.now sequence slots.now items.Notes }
{
    match valid_notes_slot(slots, group, sequence) {
        Some(slot) => Some(slot),
        None => slot_of_any_notes(slots),
    }
}

/// The lowest slot that holds a spare record.
fn slot_of_spare(slots: &[RecordSlot]) -> Option<usize>
    ensures { result ≡ position (λ slot. is_some (spare_of slot)) slots.now }
{
    slots.iter().position(has_spare)
}

/// The lowest slot that holds the record of this element of an array.
fn slot_of_element(slots: &[RecordSlot], array: &Guid, index: usize) -> Option<usize>
    ensures { result ≡ position (is_slot_of array.now index) slots.now }
{
    slots.iter().position(|slot| is_slot_of(slot, array, index))
}

/// The lowest slot in which an item stands.
fn slot_of(slots: &[RecordSlot], group: &Guid, sequence: u32, item: &Item) -> Option<usize>
    ensures { result ≡ slot_of group.now sequence slots.now item.now }
{
    match item {
        Item::Notes => slot_of_notes(slots, group, sequence),
        Item::Spare => slot_of_spare(slots),
        Item::Element(array, index) => slot_of_element(slots, array, *index),
    }
}

/// Whether no rewriting touches a slot.
fn is_others(slot: &RecordSlot) -> bool
    ensures { result ≡ is_others slot.now }
{
    matches!(slot, RecordSlot::Vendor(..) | RecordSlot::Unread(..))
}

/// The slots in which the items stand.
fn standing(
    alloc: Global,
    slots: &[RecordSlot],
    group: &Guid,
    sequence: u32,
    items: &[Item],
) -> Result<Vec<Option<usize>>, NoMemory>
    ensures { IfOk result (λ standing. standing.items ≡ map (slot_of group.now sequence slots.now) items.now) }
{
    let standing = items
        .iter()
        .map(|item| slot_of(slots, group, sequence, item))
        .collect(alloc)?;
    Ok(standing)
}

/// Whether a slot is among these.
fn is_among(standing: &[Option<usize>], slot: usize) -> bool
    ensures { result ≡ list_any (λ place. option_map_or (λ taken. taken == slot) place false) standing.now }
{
    standing.iter().any(|place| *place == Some(slot))
}

/// Whether an item stands in a slot.
fn is_taken(standing: &[Option<usize>], slot: usize) -> bool
    ensures { (group : List ℕ) (sequence : ℕ) (all : List RecordSlot) (items : List Item)
        → standing.now ≡ map (slot_of group sequence all) items → result ≡ stays_in group sequence all items slot }
{
    is_among(standing, slot)
}

/// The slots that new records may take, in rising order.
fn free_slots(
    alloc: Global,
    slots: &[RecordSlot],
    standing: &[Option<usize>],
) -> Result<Vec<usize>, NoMemory>
    ensures { (group : List ℕ) (sequence : ℕ) (items : List Item) → standing.now ≡ map (slot_of group sequence slots.now) items
        → IfOk result (λ free. free.items ≡ free_slots group sequence slots.now items) }
{
    let mut free = Vec::new(alloc);
    for (index, slot) in slots.iter().enumerate() {
        if !is_others(slot) && !is_taken(standing, index) {
            free.push(index)?;
        }
    }
    Ok(free)
}

/// Gives an item the slot where it stands, or else the first free one, if there is one. Answers the free ones that are left.
fn take_slot<'a>(
    placed: &mut Vec<Slotted>,
    item: Item,
    place: Option<usize>,
    free: &'a [usize],
) -> Result<&'a [usize], NoMemory>
    ensures { IfOk result (λ left. (others : List ℕ → List Slotted)
        → placed.new.items ++ others left.now ≡ placed.old.items ++ take_one item place others free.now) }
{
    match (place, free) {
        (Some(slot), _) => {
            placed.push(Slotted { item, slot })?;
            Ok(free)
        }
        (None, [slot, left @ ..]) => {
            placed.push(Slotted { item, slot: *slot })?;
            Ok(left)
        }
        (None, []) => Ok(free),
    }
}

/// Gives each item the slot where it stands, or else the next free one, if there is one.
#[tactic(auto, using(crate::proofs::Taking::next_taken))]
fn take_slots(
    alloc: Global,
    items: &[Item],
    standing: &[Option<usize>],
    free: &[usize],
) -> Result<Vec<Slotted>, NoMemory>
    ensures { (stands : Item → Option ℕ) → standing.now ≡ map stands items.now
        → IfOk result (λ placed. placed.items ≡ take_slots stands items.now free.now) }
{
    let mut placed = Vec::new(alloc);
    let mut left = free;
    for (item, place) in items.iter().zip(standing) {
        left = take_slot(&mut placed, *item, *place, left)?;
    }
    Ok(placed)
}

/// The items with their slots, without those for which there is none: each stands where it stood, and each new one takes the lowest
/// free slot.
#[tactic(auto, unfolding(crate::specs::Placement::slotted_items))]
pub(crate) fn slotted_items(
    alloc: Global,
    slots: &[RecordSlot],
    group: &Guid,
    sequence: u32,
    items: &[Item],
) -> Result<Vec<Slotted>, NoMemory>
    ensures { IfOk result (λ placed. placed.items ≡ slotted_items group.now sequence slots.now items.now) }
{
    let standing = standing(alloc, slots, group, sequence, items)?;
    let free = free_slots(alloc, slots, &standing)?;
    take_slots(alloc, items, &standing, &free)
}

/// What is placed in a slot.
pub(crate) fn item_at(placed: &[Slotted], slot: usize) -> Option<Item>
    ensures { result ≡ item_at placed.now slot }
{
    placed
        .iter()
        .find(|one| one.slot == slot)
        .map(|one| one.item)
}
