//! Copies of one group that are alike, so that none differs from another: one look at each tells it, where pairs of them would take as many as there
//! are pairs.
ghost use Rattle.std.specs.Prelude.{◌≡◌, filter_map};
ghost use Rattle.std.specs.Option.{option_copied};
ghost use Rattle.std.specs.List.{list_all};
ghost use Rattle.ddf_view.specs.View.{key_of_slot};
ghost use Rattle.ddf_view.specs.Reading.{elements_in};
ghost use Rattle.ddf_view.specs.Alike.{alike, are_alike, has_same_tables, is_as_first, like_first, same_note, same_noting};

use crate::arrays::least_array;
use crate::disks::least_disk;
use crate::held::key_of_slot;
use crate::same::same_record;
use crate::together::find_held;
use crate::{HeldRecord, View};
use ddf_bytes::Guid;
use ddf_config_records::{RecordSlot, SlotNote};

/// Whether two notes tell the same of an element. A record may be a copy on one disk and not on another one.
fn same_note(one: &SlotNote, other: &SlotNote) -> bool
    ensures { result ≡ same_note one.now other.now }
{
    one.position == other.position
        && one.row == other.row
        && one.stand_in == other.stand_in
        && one.out.items() == other.out.items()
}

/// Whether there are two notes that tell the same, or none.
fn same_noting(one: Option<&SlotNote>, other: Option<&SlotNote>) -> bool
    ensures { result ≡ same_noting (option_copied one.entry) (option_copied other.entry) }
{
    match (one, other) {
        (Some(first), Some(second)) => same_note(first, second),
        (None, None) => true,
        (Some(_), None) | (None, Some(_)) => false,
    }
}

/// Whether two records of one element are alike: those that are like a third are the same.
fn alike(one: &HeldRecord, other: &HeldRecord) -> bool
    ensures { result ≡ alike one.now other.now }
{
    same_record(one.element, other.element) && same_noting(one.note, other.note)
}

/// Whether a copy's record of an element is like the first that these copies hold.
fn like_first(views: &[View], view: &View, key: &(Guid, u8)) -> bool
    ensures { result ≡ like_first (elements_in views.now) view.now.elements key.now }
{
    let index = usize::from(key.1);
    match (
        find_held(views, &key.0, index),
        view.find_held(&key.0, index),
    ) {
        (Some(first), Some(own)) => alike(&first, &own),
        (None, Some(_)) => false,
        (Some(_), None) | (None, None) => true,
    }
}

/// Whether a copy's records of the elements of these slots are like the first that these copies hold.
fn each_like_first(views: &[View], view: &View, slots: &[RecordSlot]) -> bool
    ensures { result ≡ list_all (like_first (elements_in views.now) view.now.elements) (filter_map key_of_slot slots.now) }
{
    slots
        .iter()
        .filter_map(key_of_slot)
        .all(|key| like_first(views, view, &key))
}

/// Whether a copy has the disks and the arrays of the first.
fn has_same_tables(first: &View, view: &View) -> bool
    ensures { result ≡ has_same_tables first.now view.now }
{
    least_disk(first.disk_rows(), view.disk_rows()).is_none()
        && least_array(first.array_rows(), view.array_rows()).is_none()
}

fn is_as_first(first: &View, views: &[View], view: &View) -> bool
    ensures { result ≡ is_as_first first.now (elements_in views.now) view.now }
{
    has_same_tables(first, view) && each_like_first(views, view, view.slots())
}

/// Whether each copy is as this first one.
fn are_as_first(first: &View, views: &[View]) -> bool
    ensures { result ≡ list_all (is_as_first first.now (elements_in views.now)) views.now }
{
    views.iter().all(|view| is_as_first(first, views, view))
}

/// Whether copies of one group are alike (profile): each has the disks and the arrays of the first, and each of its records is like the first
/// that they hold of its element, with the same notes or none. Then none of them differs from another one, as `first_difference` has it
/// (`alike_copies_agree`). Copies that aren't alike may differ or not: pairs of them tell.
#[tactic(auto, unfolding(crate::specs::Alike::are_alike))]
pub fn are_alike(views: &[View]) -> bool
    ensures { result ≡ are_alike views.now }
{
    match views.first() {
        Some(first) => are_as_first(first, views),
        None => true,
    }
}
