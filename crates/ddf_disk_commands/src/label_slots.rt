//! The slots that `label` takes, and what it is refused for: every anchor is read before the first write, since a disk with one may be needed by a
//! group.
//! docs/COMMANDS.md#label
ghost use Rattle.std.specs.Prelude.{◌≡◌, ◌+◌, ◌<◌, ◌≤◌, nat_le, Some, None, All, IfOk, IfErr, OnOk, length};
ghost use Rattle.std.specs.List.{find};
ghost use Rattle.ddf_bay.specs.ReadsOnly.{ReadsOnly, SlotRose};
ghost use Rattle.ddf_disk_commands.specs.Label.{label_slots};
ghost use Rattle.ddf_disk_commands.specs.LabelRefusal.{IsFit, IsFitFailure, chosen, is_anchored, is_chosen, is_named, is_small, label_refusal, layout_of, misfit, missing, unfit};
ghost use Rattle.ddf_disk_commands.specs.Quiet.{IsQuiet};

use ddf_answer::Failure;
use ddf_bay::{Bay, DiskFault};
use ddf_bytes::NoMemory;
use ddf_config::{FullTable, Refusal};
use ddf_copy::{AnchorFault, anchor_of};
use ddf_update::NewLayout;
use std::alloc::Global;

/// The layout of the disks that `label` makes of the named slots, or of all where none is named, of so many that are there (profile).
pub fn layout_for(large: bool, named: &[u8], count: usize) -> NewLayout
    ensures { result ≡ layout_of large (length (chosen count named.now)) }
{
    layout_of(large, count_chosen(named, count))
}

/// How many of the first slots are labelled.
fn count_chosen(named: &[u8], count: usize) -> usize
    ensures { result ≡ length (chosen count named.now) }
{
    let mut labelled = 0;
    for slot in 0..count {
        if is_chosen(named, slot) {
            labelled += 1;
        }
    }
    labelled
}

/// The layout of the disks of a new group of so many: those of a large one where it is asked for, or where a small one has no room for so
/// many (profile).
pub(crate) fn layout_of(large: bool, count: usize) -> NewLayout
    ensures { result ≡ layout_of large count }
{
    if large || count > usize::from(NewLayout::Small.most_disks()) {
        NewLayout::Large
    } else {
        NewLayout::Small
    }
}

/// The slots to label, in rising order: those that are named, or all. It reads the last sector of each. With `large` the group is to be a
/// large one.
pub(crate) fn fit_slots<B: Bay>(
    alloc: Global,
    large: bool,
    named: &[u8],
    bay: &mut B,
) -> Result<Vec<usize>, Failure>
    ensures slots { IfOk result (λ slots. slots.items ≡ label_slots (B.disks bay.old).sizes named.now) }
    ensures fit { IfOk result (λ slots. IsFit (layout_of large (length slots.items)) (B.disks bay.old).sizes slots.items) }
    ensures unrefused { B.tells → OnOk result (label_refusal large (B.disks bay.old).sizes (B.disks bay.old).held named.now ≡ None) }
    ensures failed { IfErr result (IsFitFailure (B.disks bay.old) (B.disks bay.new) B.tells large named.now) }
    ensures quiet { OnOk result (IsQuiet (B.disks bay.old) (B.disks bay.new)) }
    ensures reads { ReadsOnly (B.disks bay.old) (B.disks bay.new) }
    ensures calls { (B.disks bay.new).calls ≤ (B.disks bay.old).calls + length (label_slots (B.disks bay.old).sizes named.now) }
{
    let count = bay.slots();
    if let Some(slot) = missing(count, named) {
        return Err(Failure::Refused(Refusal::NoSlot(slot)));
    }
    let Ok(slots) = chosen(alloc, count, named) else {
        return Err(Failure::Memory);
    };
    match unfit(bay, large, &slots) {
        Ok(None) => Ok(slots),
        Ok(Some(refusal)) => Err(Failure::Refused(refusal)),
        Err(DiskFault(slot)) => Err(Failure::Disk(slot)),
    }
}

/// The first named slot that isn't there. Without names and without slots it is slot 0.
fn missing(count: usize, named: &[u8]) -> Option<usize>
    ensures { result ≡ missing count named.now }
{
    if !named.is_empty() {
        return first_beyond(count, named);
    }
    if count == 0 { Some(0) } else { None }
}

fn first_beyond(count: usize, named: &[u8]) -> Option<usize>
    ensures { result ≡ find (λ slot. nat_le count slot) named.now }
{
    named
        .iter()
        .map(|slot| usize::from(*slot))
        .find(|slot| count <= *slot)
}

fn chosen(alloc: Global, count: usize, named: &[u8]) -> Result<Vec<usize>, NoMemory>
    requires { count ≤ 64 }
    ensures { IfOk result (λ slots. slots.items ≡ chosen count named.now) }
{
    let mut slots = Vec::with_capacity(alloc, count)?;
    for slot in 0..count {
        if is_chosen(named, slot) {
            slots.push(slot)?;
        }
    }
    Ok(slots)
}

fn is_chosen(named: &[u8], slot: usize) -> bool
    ensures { result ≡ is_chosen named.now slot }
{
    if named.is_empty() {
        return true;
    }
    is_named(named, slot)
}

fn is_named(named: &[u8], slot: usize) -> bool
    ensures { result ≡ is_named named.now slot }
{
    named.iter().any(|other| usize::from(*other) == slot)
}

/// What these slots are refused for. All their anchors are read before.
fn unfit<B: Bay>(bay: &mut B, large: bool, slots: &[usize]) -> Result<Option<Refusal>, DiskFault>
    requires { All (λ slot. slot < length (B.disks bay.old).sizes) slots.now }
    ensures answer { B.tells → IfOk result (λ refusal. refusal ≡ unfit (layout_of large (length slots.now)) (B.disks bay.old).sizes (B.disks bay.old).held slots.now) }
    ensures fit { IfOk result (λ refusal. refusal ≡ None → IsFit (layout_of large (length slots.now)) (B.disks bay.old).sizes slots.now) }
    ensures failed { IfErr result (λ e. (e.0 < length (B.disks bay.old).sizes) × SlotRose (B.disks bay.old) (B.disks bay.new) e.0) }
    ensures quiet { OnOk result (IsQuiet (B.disks bay.old) (B.disks bay.new)) }
    ensures reads { ReadsOnly (B.disks bay.old) (B.disks bay.new) }
    ensures calls { (B.disks bay.new).calls ≤ (B.disks bay.old).calls + length slots.now }
{
    match first_anchored(bay, slots) {
        Ok(anchored) => Ok(misfit(bay, layout_of(large, slots.len()), slots, anchored)),
        Err(fault) => Err(fault),
    }
}

/// What slots are refused for of which this is the first with an anchor, and whose disks are to be of a layout.
fn misfit<B: Bay>(
    bay: &B,
    layout: NewLayout,
    slots: &[usize],
    anchored: Option<usize>,
) -> Option<Refusal>
    requires { All (λ slot. slot < length (B.disks bay.now).sizes) slots.now }
    ensures { result ≡ misfit layout (B.disks bay.now).sizes anchored slots.now }
{
    if let Some(slot) = anchored {
        return Some(Refusal::NotBlank(slot));
    }
    if let Some(slot) = first_small(bay, layout, slots) {
        return Some(Refusal::Small {
            needed: layout.least_sectors(),
            found: bay.size(slot),
        });
    }
    if slots.len() > usize::from(layout.most_disks()) {
        return Some(Refusal::Full(FullTable::Disks));
    }
    None
}

/// The first of the slots with too few sectors.
fn first_small<B: Bay>(bay: &B, layout: NewLayout, slots: &[usize]) -> Option<usize>
    requires { All (λ slot. slot < length (B.disks bay.now).sizes) slots.now }
    ensures { result ≡ find (is_small layout (B.disks bay.now).sizes) slots.now }
{
    let least = layout.least_sectors();
    slots.iter().copied().find(|slot| bay.size(*slot) < least)
}

/// The first of the slots that isn't blank. The anchors of all are read.
fn first_anchored<B: Bay>(bay: &mut B, slots: &[usize]) -> Result<Option<usize>, DiskFault>
    requires { All (λ slot. slot < length (B.disks bay.old).sizes) slots.now }
    ensures answer { B.tells → IfOk result (λ first. first ≡ find (is_anchored (B.disks bay.old).sizes (B.disks bay.old).held) slots.now) }
    ensures failed { IfErr result (λ e. (e.0 < length (B.disks bay.old).sizes) × SlotRose (B.disks bay.old) (B.disks bay.new) e.0) }
    ensures quiet { OnOk result (IsQuiet (B.disks bay.old) (B.disks bay.new)) }
    ensures reads { ReadsOnly (B.disks bay.old) (B.disks bay.new) }
    ensures calls { (B.disks bay.new).calls ≤ (B.disks bay.old).calls + length slots.now }
{
    let mut first = None;
    for slot in slots {
        let anchored = is_anchored(bay, *slot)?;
        first = first.or(anchored.then_some(*slot));
    }
    Ok(first)
}

/// Whether a slot's last sector begins as an anchor.
fn is_anchored<B: Bay>(bay: &mut B, slot: usize) -> Result<bool, DiskFault>
    requires { slot < length (B.disks bay.old).sizes }
    ensures answer { B.tells → IfOk result (λ anchored. anchored ≡ is_anchored (B.disks bay.old).sizes (B.disks bay.old).held slot) }
    ensures failed { IfErr result (λ e. (e.0 ≡ slot) × SlotRose (B.disks bay.old) (B.disks bay.new) slot) }
    ensures quiet { OnOk result (IsQuiet (B.disks bay.old) (B.disks bay.new)) }
    ensures reads { ReadsOnly (B.disks bay.old) (B.disks bay.new) }
    ensures calls { (B.disks bay.new).calls ≤ (B.disks bay.old).calls + 1 }
{
    match anchor_of(bay, slot) {
        Err(AnchorFault::Blank) => Ok(false),
        Err(AnchorFault::Disk(slot)) => Err(DiskFault(slot)),
        Ok(_) | Err(AnchorFault::Damaged(_)) => Ok(true),
    }
}
