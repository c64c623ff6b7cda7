//! The slots of the configuration records after a change.
ghost use Rattle.std.specs.Prelude.{◌≡◌, ◌++◌, ◌≤◌, length, map, replicate, IfOk, OnOk};
ghost use Rattle.std.specs.List.{enumerate_from};
ghost use Rattle.ddf_config_records.specs.declared.notes.Notes.{Notes};
ghost use Rattle.ddf_config_records.specs.declared.spare.SpareRecord.{SpareRecord};
ghost use Rattle.ddf_config_records.specs.declared.slot.RecordSlot.TheVariants as slots;
ghost use Rattle.ddf_config_records.specs.Elements.{record_size};
ghost use Rattle.ddf_rewrite.specs.declared.item.Item.TheVariants as items;
ghost use Rattle.ddf_rewrite.specs.Room.{CanHoldSpare};
ghost use Rattle.ddf_rewrite.specs.Copies.{element_item, items_of, left_slot, slotted_on, record_of, slot_after, slots_after, slots_with, spare_on, unused_slot};

use crate::holding::{Holding, element_slot, find_holding};
use crate::issue::Issue;
use crate::item::{Item, Slotted};
use crate::notes::notes_after;
use crate::placement::{item_at, slotted_items};
use crate::spares::{spare_after, spare_use};
use ddf_bytes::{Guid, NoMemory, Seq};
use ddf_config::{Config, SpareUse};
use ddf_config_records::{Notes, RecordSlot, SpareRecord, record_size};
use ddf_copy::DiskCopy;
use ddf_header::Geometry;
use ddf_view::first_spare;
use std::alloc::Global;

/// What is to have a slot, in the order in which new records take theirs: the notes, the spare record, and the elements.
pub(crate) fn items_of(
    alloc: Global,
    noted: bool,
    use_as: &SpareUse,
    holdings: &[Holding],
) -> Result<Vec<Item>, NoMemory>
    ensures { IfOk result (λ all. all.items ≡ items_of noted use_as.now holdings.now) }
{
    let mut all = Vec::new(alloc);
    if noted {
        all.push(Item::Notes)?;
    }
    if use_as.is_spare() {
        all.push(Item::Spare)?;
    }
    push_elements(&mut all, holdings)?;
    Ok(all)
}

/// Puts the elements that a disk is to hold behind other items.
fn push_elements(all: &mut Vec<Item>, holdings: &[Holding]) -> Result<(), NoMemory>
    ensures { OnOk result (all.new.items ≡ all.old.items ++ map element_item holdings.now) }
{
    for holding in holdings {
        all.push(Item::Element(holding.wanted.guid, holding.wanted.index))?;
    }
    Ok(())
}

/// An unused slot: FF in all bytes.
fn unused_slot(alloc: Global, geometry: &Geometry) -> Result<RecordSlot, NoMemory>
    ensures { IfOk result (λ slot. slot ≡ unused_slot geometry.now) }
{
    let bytes = vec![in alloc; 0xFF; record_size(geometry)]?;
    Ok(RecordSlot::Unused(Seq::new(bytes)))
}

/// A slot where nothing is placed.
fn left_slot(alloc: Global, geometry: &Geometry, slot: &RecordSlot) -> Result<RecordSlot, NoMemory>
    ensures { IfOk result (λ left. left ≡ left_slot geometry.now slot.now) }
{
    match slot {
        RecordSlot::Vendor(..) | RecordSlot::Unread(..) | RecordSlot::Unused(_) => {
            slot.duplicate(alloc)
        }
        RecordSlot::Element(_)
        | RecordSlot::Copied(_)
        | RecordSlot::Spare(_)
        | RecordSlot::Notes(_) => unused_slot(alloc, geometry),
    }
}

/// The records that a disk is to have.
#[derive(Drop)]
struct Records<'a, 'b> {
    /// Its elements.
    holdings: &'a [Holding<'b>],
    /// The slot of its notes.
    notes: RecordSlot,
    /// The slot of its spare record.
    spare: RecordSlot,
}

/// The record of an item.
fn record_of(
    alloc: Global,
    geometry: &Geometry,
    records: &Records,
    item: &Item,
) -> Result<RecordSlot, NoMemory>
    ensures { (notes : Notes) (spare : SpareRecord) → records.now.notes ≡ slots.Notes notes → records.now.spare ≡ slots.Spare spare
        → IfOk result (λ slot. slot ≡ record_of geometry.now records.now.holdings.now notes spare item.now) }
{
    match item {
        Item::Notes => records.notes.duplicate(alloc),
        Item::Spare => records.spare.duplicate(alloc),
        Item::Element(array, index) => match find_holding(records.holdings, array, *index) {
            Some(holding) => element_slot(alloc, holding),
            None => unused_slot(alloc, geometry),
        },
    }
}

/// Every slot, with what is placed there.
fn slots_with(
    alloc: Global,
    old: &DiskCopy,
    records: &Records,
    placed: &[Slotted],
) -> Result<Vec<RecordSlot>, NoMemory>
    ensures { (notes : Notes) (spare : SpareRecord) → records.now.notes ≡ slots.Notes notes → records.now.spare ≡ slots.Spare spare
        → IfOk result (λ after. after.items ≡ slots_with old.now records.now.holdings.now spare placed.now notes) }
{
    let geometry = &old.header.geometry;
    let mut after = Vec::new(alloc);
    for (index, slot) in old.slots.items().iter().enumerate() {
        after.push(match item_at(placed, index) {
            Some(item) => record_of(alloc, geometry, records, &item)?,
            None => left_slot(alloc, geometry, slot)?,
        })?;
    }
    Ok(after)
}

/// The spare record of a disk.
fn spare_on(alloc: Global, old: &DiskCopy, issue: &Issue) -> Result<SpareRecord, NoMemory>
    requires { CanHoldSpare old.now issue.now.config.now }
    ensures { IfOk result (λ spare. spare ≡ spare_on old.now issue.now.config.now issue.now.timestamp) }
{
    let use_as = spare_use(alloc, issue.config, old.disk_data.reference)?;
    spare_after(
        alloc,
        &old.header.geometry,
        issue.timestamp,
        &use_as,
        first_spare(old.slots.items()),
    )
}

/// Where each item stands on a disk.
pub(crate) fn slotted_on(
    alloc: Global,
    old: &DiskCopy,
    noted: bool,
    config: &Config,
    holdings: &[Holding],
) -> Result<Vec<Slotted>, NoMemory>
    ensures { IfOk result (λ placed. placed.items ≡ slotted_on old.now noted config.now holdings.now) }
{
    let use_as = spare_use(alloc, config, old.disk_data.reference)?;
    let items = items_of(alloc, noted, &use_as, holdings)?;
    slotted_items(
        alloc,
        old.slots.items(),
        &old.header.guid,
        old.header.sequence,
        &items,
    )
}

/// The slots of the configuration records of a disk that is to hold these elements.
#[tactic(auto, unfolding(crate::specs::Copies::slots_after))]
pub(crate) fn slots_after(
    alloc: Global,
    old: &DiskCopy,
    noted: bool,
    issue: &Issue,
    holdings: &[Holding],
) -> Result<Vec<RecordSlot>, NoMemory>
    requires { CanHoldSpare old.now issue.now.config.now }
    ensures { IfOk result (λ after. after.items ≡ slots_after old.now noted issue.now.config.now issue.now.timestamp holdings.now) }
{
    let config = issue.config;
    let placed = slotted_on(alloc, old, noted, config, holdings)?;
    let notes = notes_after(alloc, config, holdings, &placed, old.slots.items().len())?;
    let spare = spare_on(alloc, old, issue)?;
    let records = Records {
        holdings,
        notes: RecordSlot::Notes(notes),
        spare: RecordSlot::Spare(spare),
    };
    slots_with(alloc, old, &records, &placed)
}
