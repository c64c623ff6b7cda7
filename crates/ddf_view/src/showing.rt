//! Whether a copy shows a configuration.
ghost use Rattle.std.specs.Prelude.{◌≡◌, ℕ, List, false, ◌∷◌, [], filter_map, is_none, MatchOption};
ghost use Rattle.std.specs.Cmp.Lexicographic.{pointwise};
ghost use Rattle.std.specs.List.{enumerate_from, list_all};
ghost use Rattle.ddf_config.specs.declared.member.Member.{Member};
ghost use Rattle.ddf_config.specs.declared.array.Array.{Array};
ghost use Rattle.ddf_view.specs.View.{array_of, disk_of};
ghost use Rattle.ddf_view.specs.Shows.{
  gives_array,
  gives_element,
  gives_elements,
  gives_if_held,
  gives_member,
  gives_numbers,
  names_numbers,
  shows,
};
ghost use Rattle.ddf_view.specs.Reading.{naming_record};

use crate::arrays::array_of;
use crate::disks::disk_of;
use crate::element_reading::plan_of;
use crate::flags::is_missing;
use crate::same::same_plan;
use crate::together::naming_record;
use crate::{HeldRecord, View};
use ddf_bytes::Guid;
use ddf_config::{Array, Config, ElementPlan, Member};
use ddf_tables::{ArrayEntry, ArrayRow, DiskEntry, DiskRow};
use indexmap::IndexMap;
use std::slice;

fn gives_member(disk: &DiskEntry, reference: u32, member: &Member) -> bool
    ensures { result ≡ gives_member disk.now (reference, member.now) }
{
    disk.reference == reference
        && disk.guid == member.guid
        && disk.size == member.size
        && is_missing(disk) == member.missing
}

fn gives_array(entry: &ArrayEntry, guid: &Guid, array: &Array) -> bool
    ensures { result ≡ gives_array entry.now (guid.now, array.now) }
{
    entry.guid == *guid
        && entry.name == array.name
        && entry.number == array.number
        && entry.state == array.state
        && entry.init == array.init
}

/// The first used row, and the rows behind it.
fn first_disk(rows: &[DiskRow]) -> Option<(DiskEntry, &[DiskRow])>
    ensures { MatchOption result (filter_map disk_of rows.now ≡ []) (λ first. filter_map disk_of rows.now ≡ first.0 ∷ filter_map disk_of first.1.now) }
{
    for (index, row) in rows.iter().enumerate() {
        if let Some(disk) = disk_of(row) {
            return Some((disk, &rows[index + 1..]));
        }
    }
    None
}

/// The first used row, and the rows behind it.
fn first_array(rows: &[ArrayRow]) -> Option<(ArrayEntry, &[ArrayRow])>
    ensures { MatchOption result (filter_map array_of rows.now ≡ []) (λ first. filter_map array_of rows.now ≡ first.0 ∷ filter_map array_of first.1.now) }
{
    for (index, row) in rows.iter().enumerate() {
        if let Some(array) = array_of(row) {
            return Some((array, &rows[index + 1..]));
        }
    }
    None
}

/// The rows behind the first used one, where it gives a member.
fn behind_member<'a>(rows: &'a [DiskRow], reference: u32, member: &Member) -> Option<&'a [DiskRow]>
    ensures { MatchOption result ((entries : List (ℕ × Member)) → pointwise gives_member (filter_map disk_of rows.now) ((reference, member.now) ∷ entries) ≡ false)
        (λ behind. (entries : List (ℕ × Member)) → pointwise gives_member (filter_map disk_of rows.now) ((reference, member.now) ∷ entries) ≡ pointwise gives_member (filter_map disk_of behind.now) entries) }
{
    match first_disk(rows) {
        Some((disk, behind)) => {
            if gives_member(&disk, reference, member) {
                Some(behind)
            } else {
                None
            }
        }
        None => None,
    }
}

/// Whether the used rows give these members, all of them and in their order.
fn give_members(rows: &[DiskRow], members: &IndexMap<u32, Member>) -> bool
    ensures { result ≡ pointwise gives_member (filter_map disk_of rows.now) members.now.entries }
{
    let mut left = rows;
    for (reference, member) in members {
        match behind_member(left, *reference, member) {
            Some(behind) => left = behind,
            None => return false,
        }
    }
    first_disk(left).is_none()
}

/// The rows behind the first used one, where it gives an array.
fn behind_array<'a>(rows: &'a [ArrayRow], guid: &Guid, array: &Array) -> Option<&'a [ArrayRow]>
    ensures { MatchOption result ((entries : List (List ℕ × Array)) → pointwise gives_array (filter_map array_of rows.now) ((guid.now, array.now) ∷ entries) ≡ false)
        (λ behind. (entries : List (List ℕ × Array)) → pointwise gives_array (filter_map array_of rows.now) ((guid.now, array.now) ∷ entries) ≡ pointwise gives_array (filter_map array_of behind.now) entries) }
{
    match first_array(rows) {
        Some((entry, behind)) => {
            if gives_array(&entry, guid, array) {
                Some(behind)
            } else {
                None
            }
        }
        None => None,
    }
}

/// Whether the used rows give these arrays, all of them and in their order.
fn give_arrays(rows: &[ArrayRow], arrays: &IndexMap<Guid, Array>) -> bool
    ensures { result ≡ pointwise gives_array (filter_map array_of rows.now) arrays.now.entries }
{
    let mut left = rows;
    for (guid, array) in arrays {
        match behind_array(left, guid, array) {
            Some(behind) => left = behind,
            None => return false,
        }
    }
    first_array(left).is_none()
}

/// Whether a record gives an element.
fn gives_element(held: &HeldRecord, part: &Option<ElementPlan>) -> bool
    ensures { result ≡ gives_element held.now part.now }
{
    match part {
        Some(plan) => same_plan(held.note, &plan_of(&[], held.note, held.element), plan),
        None => false,
    }
}

/// Whether the record of an element, where the copy holds it, gives the element.
fn gives_if_held(view: &View, array: &Guid, index: usize, part: &Option<ElementPlan>) -> bool
    ensures { result ≡ gives_if_held view.now.elements array.now (index, part.now) }
{
    match view.find_held(array, index) {
        Some(held) => gives_element(&held, part),
        None => true,
    }
}

/// Whether the record of an element, where the copy holds it, names an array's number of elements and its secondary level.
fn names_numbers(
    view: &View,
    guid: &Guid,
    array: &Array,
    index: usize,
    part: &Option<ElementPlan>,
) -> bool
    ensures { result ≡ names_numbers view.now.elements (guid.now, array.now) (index, part.now) }
{
    match view.find_held(guid, index) {
        Some(held) => {
            let element = held.element;
            usize::from(element.elements) == array.elements.items().len()
                && element.secondary == array.secondary
        }
        None => true,
    }
}

/// Whether the copy holds no record of an array.
fn holds_none(view: &View, guid: &Guid) -> bool
    ensures { result ≡ is_none (naming_record view.now.elements guid.now) }
{
    naming_record(slice::from_ref(view), guid).is_none()
}

/// Whether the record of an array's least element names its numbers. Of an array without any element no record is held.
fn gives_numbers(view: &View, guid: &Guid, array: &Array) -> bool
    ensures { result ≡ gives_numbers view.now.elements (guid.now, array.now) }
{
    for (index, part) in array.elements.items().iter().enumerate() {
        if part.is_some() {
            return names_numbers(view, guid, array, index, part);
        }
    }
    holds_none(view, guid)
}

fn gives_each(view: &View, guid: &Guid, parts: &[Option<ElementPlan>]) -> bool
    ensures { result ≡ list_all (gives_if_held view.now.elements guid.now) (enumerate_from 0 parts.now) }
{
    parts
        .iter()
        .enumerate()
        .all(|(index, part)| gives_if_held(view, guid, index, part))
}

/// Whether the records that the copy holds of an array give its elements.
fn gives_elements(view: &View, guid: &Guid, array: &Array) -> bool
    ensures { result ≡ gives_elements view.now.elements (guid.now, array.now) }
{
    gives_numbers(view, guid, array) && gives_each(view, guid, array.elements.items())
}

fn gives_all_elements(view: &View, arrays: &IndexMap<Guid, Array>) -> bool
    ensures { result ≡ list_all (gives_elements view.now.elements) arrays.now.entries }
{
    for (guid, array) in arrays {
        if !gives_elements(view, guid, array) {
            return false;
        }
    }
    true
}

/// Whether a copy shows a configuration (profile): it is of its group and its sequence, lists its members and arrays in their
/// order, and each record that it holds gives the configuration's element. Without valid notes it tells nothing of the positions
/// in sync, the rebuild rows and the disk that stands in. What disks may stand in for isn't compared.
#[tactic(auto, unfolding(crate::specs::Shows::shows))]
pub fn shows(view: &View, config: &Config) -> bool
    ensures { result ≡ shows config.now view.now }
{
    view.sequence() == config.sequence
        && view.group() == config.group
        && give_members(view.disk_rows(), &config.members)
        && give_arrays(view.array_rows(), &config.arrays)
        && gives_all_elements(view, &config.arrays)
}
