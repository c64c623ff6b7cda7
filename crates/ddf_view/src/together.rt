//! What several views hold together, the first disk first.
ghost use Rattle.std.specs.Prelude.{◌≡◌, filter_map};
ghost use Rattle.std.specs.Option.{option_copied};
ghost use Rattle.ddf_view.specs.View.{array_of, disk_of, find_held, find_note};
ghost use Rattle.ddf_view.specs.Reading.{are_noted, arrays_in, count_in, disks_in, elements_in, naming_record, secondary_in};

use crate::{HeldRecord, View};
use ddf_bytes::Guid;
use ddf_config_records::SlotNote;
use ddf_tables::{ArrayRow, DiskRow};

/// The most elements that an array has (profile).
const MOST_ELEMENTS: usize = 16;

/// The rows of the first view's disks.
pub fn disk_rows<'a>(views: &[View<'a>]) -> &'a [DiskRow]
    ensures { filter_map disk_of result.now ≡ disks_in views.now }
{
    match views.first() {
        Some(view) => view.disk_rows(),
        None => &[],
    }
}

/// The rows of the first view's arrays.
pub(crate) fn array_rows<'a>(views: &[View<'a>]) -> &'a [ArrayRow]
    ensures { filter_map array_of result.now ≡ arrays_in views.now }
{
    match views.first() {
        Some(view) => view.array_rows(),
        None => &[],
    }
}

/// Whether a view has valid notes.
pub(crate) fn are_noted(views: &[View]) -> bool
    ensures { result ≡ are_noted views.now }
{
    views.iter().any(|view| view.is_noted())
}

/// The record of an element, of the first view that holds it.
pub fn find_held<'a>(views: &[View<'a>], array: &Guid, index: usize) -> Option<HeldRecord<'a>>
    ensures { result ≡ find_held array.now index (elements_in views.now) }
{
    for view in views {
        if let Some(held) = view.find_held(array, index) {
            return Some(held);
        }
    }
    None
}

/// The note of an element, of the first view that has one.
pub(crate) fn find_note<'a>(views: &[View<'a>], array: &Guid, index: usize) -> Option<&'a SlotNote>
    ensures { option_copied result ≡ find_note array.now index (elements_in views.now) }
{
    for view in views {
        if let Some(note) = view.find_note(array, index) {
            return Some(note);
        }
    }
    None
}

/// The record of the least element that a view holds.
#[tactic(auto, unfolding(crate::specs::Reading::naming_record))]
pub(crate) fn naming_record<'a>(views: &[View<'a>], array: &Guid) -> Option<HeldRecord<'a>>
    ensures { result ≡ naming_record (elements_in views.now) array.now }
{
    for index in 0..MOST_ELEMENTS {
        if let Some(held) = find_held(views, array, index) {
            return Some(held);
        }
    }
    None
}

/// How many elements an array has.
pub(crate) fn count_in(views: &[View], array: &Guid) -> usize
    ensures { result ≡ count_in (elements_in views.now) array.now }
{
    match naming_record(views, array) {
        Some(held) => {
            let element = held.element;
            usize::from(element.elements)
        }
        None => 1,
    }
}

/// The secondary level of an array.
pub(crate) fn secondary_in(views: &[View], array: &Guid) -> u8
    ensures { result ≡ secondary_in (elements_in views.now) array.now }
{
    match naming_record(views, array) {
        Some(held) => {
            let element = held.element;
            element.secondary
        }
        None => 0,
    }
}
