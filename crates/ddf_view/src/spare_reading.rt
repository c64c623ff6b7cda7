//! What disks may stand in for. The spares of each array are gathered once, so that a disk is looked up by its reference.
//! docs/FORMAT.md#spare-record
ghost use Rattle.std.specs.Prelude.{◌≡◌, ◌==◌, ◌&&◌, ◌++◌, not, filter_map, is_some, map, option_map, IfOk, OnOk, if◌then◌else◌};
ghost use Rattle.ddf_config.specs.declared.member.SpareUse.TheVariants as uses;
ghost use Rattle.std.specs.Option.{option_to_list};
ghost use Rattle.std.specs.List.{flat_map, list_any, range_with_len};
ghost use Rattle.ddf_view.specs.View.{array_of, find_held, has_bit};
ghost use Rattle.ddf_view.specs.Reading.{are_noted, dedicated_or_not, elements_in, naming_record};
ghost use Rattle.ddf_view.specs.Spares.{
  dedicated_among,
  dedicated_by,
  held_spares,
  listed_in,
  named_by,
  named_in,
  counts_own,
  spare_among,
  spares_of,
};

use crate::View;
use crate::arrays::array_of;
use crate::flags::{is_global, is_spare};
use crate::together::{are_noted, count_in, find_held, naming_record};
use ddf_bytes::{Guid, NoMemory, Seq};
use ddf_config::SpareUse;
use ddf_tables::{ArrayEntry, ArrayRow, DiskEntry, DiskType};
use std::alloc::Global;

/// An array, and the references of the disks that stand in for it.
#[derive(Drop)]
pub(crate) struct ArraySpares {
    /// The GUID of the array.
    pub array: Guid,
    /// The references.
    pub references: Seq<u32>,
}

/// Puts the associated spares of an element behind others, where a view holds its record.
fn push_held(all: &mut Vec<u32>, views: &[View], array: &Guid, index: usize) -> Result<(), NoMemory>
    ensures { OnOk result (all.new.items ≡ all.old.items ++ held_spares (find_held array.now index (elements_in views.now))) }
{
    match find_held(views, array, index) {
        Some(held) => {
            let element = held.element;
            all.extend_from_slice(&element.spares)?;
            Ok(())
        }
        None => Ok(()),
    }
}

/// Puts the associated spares of so many elements of an array behind others.
fn push_elements(
    all: &mut Vec<u32>,
    views: &[View],
    array: &Guid,
    count: usize,
) -> Result<(), NoMemory>
    ensures { OnOk result (all.new.items ≡ all.old.items ++ flat_map (λ index. held_spares (find_held array.now index (elements_in views.now))) (range_with_len 0 count)) }
{
    for index in 0..count {
        push_held(all, views, array, index)?;
    }
    Ok(())
}

/// Puts the associated spares of an array behind others.
fn push_listed(all: &mut Vec<u32>, views: &[View], array: &Guid) -> Result<(), NoMemory>
    ensures { OnOk result (all.new.items ≡ all.old.items ++ listed_in views.now array.now) }
{
    push_elements(all, views, array, count_in(views, array))
}

/// Puts the reference of a copy's own disk behind others, where its spare record names the array.
fn push_name(all: &mut Vec<u32>, view: &View, array: &Guid) -> Result<(), NoMemory>
    ensures { OnOk result (all.new.items ≡ all.old.items ++ named_by array.now view.now) }
{
    if view.spare_names(array) {
        all.push(view.reference())?;
        Ok(())
    } else {
        Ok(())
    }
}

fn push_names(all: &mut Vec<u32>, views: &[View], array: &Guid) -> Result<(), NoMemory>
    ensures { OnOk result (all.new.items ≡ all.old.items ++ flat_map (named_by array.now) views.now) }
{
    for view in views {
        push_name(all, view, array)?;
    }
    Ok(())
}

/// Whether the disks' own spare records count for an array: where no view has valid notes and one holds an element of it.
fn counts_own(views: &[View], array: &Guid) -> bool
    ensures { result ≡ counts_own views.now array.now }
{
    !are_noted(views) && naming_record(views, array).is_some()
}

/// Puts the disks whose own spare records name the array behind others, where these records count.
fn push_named(all: &mut Vec<u32>, views: &[View], array: &Guid) -> Result<(), NoMemory>
    ensures { OnOk result (all.new.items ≡ all.old.items ++ named_in views.now array.now) }
{
    if counts_own(views, array) {
        push_names(all, views, array)
    } else {
        Ok(())
    }
}

/// The disks that stand in for an array.
fn spares_of(alloc: Global, views: &[View], entry: &ArrayEntry) -> Result<ArraySpares, NoMemory>
    ensures { IfOk result (λ spares. spares ≡ spares_of views.now entry.now) }
{
    let mut references = Vec::new(alloc);
    push_listed(&mut references, views, &entry.guid)?;
    push_named(&mut references, views, &entry.guid)?;
    Ok(ArraySpares {
        array: entry.guid,
        references: Seq::new(references),
    })
}

/// Puts the spares of a row's array behind those of others.
fn push_spares(
    alloc: Global,
    views: &[View],
    all: &mut Vec<ArraySpares>,
    row: &ArrayRow,
) -> Result<(), NoMemory>
    ensures { OnOk result (all.new.items ≡ all.old.items ++ option_to_list (option_map (spares_of views.now) (array_of row.now))) }
{
    match array_of(row) {
        Some(entry) => {
            let spares = spares_of(alloc, views, &entry)?;
            all.push(spares)?;
            Ok(())
        }
        None => Ok(()),
    }
}

/// The disks that stand in for each array of these rows.
///
/// # Errors
/// Memory ran out.
pub(crate) fn spares_in(
    alloc: Global,
    views: &[View],
    rows: &[ArrayRow],
) -> Result<Vec<ArraySpares>, NoMemory>
    ensures { IfOk result (λ all. all.items ≡ map (spares_of views.now) (filter_map array_of rows.now)) }
{
    let mut all = Vec::new(alloc);
    for row in rows {
        push_spares(alloc, views, &mut all, row)?;
    }
    Ok(all)
}

fn is_among(references: &[u32], reference: u32) -> bool
    ensures { result ≡ list_any (λ spare. spare == reference) references.now }
{
    references.iter().any(|spare| *spare == reference)
}

/// Puts an array behind others, where the disk stands in for it.
fn push_array(arrays: &mut Vec<Guid>, spares: &ArraySpares, reference: u32) -> Result<(), NoMemory>
    ensures { OnOk result (arrays.new.items ≡ arrays.old.items ++ dedicated_by reference spares.now) }
{
    if is_among(spares.references.items(), reference) {
        arrays.push(spares.array)?;
        Ok(())
    } else {
        Ok(())
    }
}

/// The arrays that a disk is a spare for, in table order.
fn dedicated_among(
    alloc: Global,
    all: &[ArraySpares],
    reference: u32,
) -> Result<Vec<Guid>, NoMemory>
    ensures { IfOk result (λ arrays. arrays.items ≡ dedicated_among all.now reference) }
{
    let mut arrays = Vec::new(alloc);
    for spares in all {
        push_array(&mut arrays, spares, reference)?;
    }
    Ok(arrays)
}

fn dedicated_or_not(arrays: Vec<Guid>) -> SpareUse
    ensures { result ≡ dedicated_or_not arrays.items }
{
    if arrays.is_empty() {
        SpareUse::No
    } else {
        SpareUse::Dedicated(Seq::new(arrays))
    }
}

/// The use of a spare for every array, by its type.
fn global_use(kind: DiskType) -> SpareUse
    ensures { result ≡ (if has_bit kind.0 3 then uses.Revertible else uses.Global) }
{
    if is_spare(kind) {
        SpareUse::Revertible
    } else {
        SpareUse::Global
    }
}

/// What a disk of the first view may stand in for, by the spares of all arrays.
///
/// # Errors
/// Memory ran out.
pub(crate) fn spare_among(
    alloc: Global,
    all: &[ArraySpares],
    disk: &DiskEntry,
) -> Result<SpareUse, NoMemory>
    ensures { IfOk result (λ spare. spare ≡ spare_among all.now disk.now) }
{
    if is_global(disk.kind) {
        return Ok(global_use(disk.kind));
    }
    let arrays = dedicated_among(alloc, all, disk.reference)?;
    Ok(dedicated_or_not(arrays))
}
