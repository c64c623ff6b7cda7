//! Whether two copies are level: of one sequence and with the same sections. Of two that differ none may be chosen. docs/FORMAT.md#the-newest-copy
ghost use Rattle.std.specs.Prelude.{◌≡◌, ◌*◌, ◌+◌, ◌<◌, ◌≤◌, List, length, slice_get, Some, map};
ghost use Rattle.std.specs.List.{list_all, range_with_len};
ghost use Rattle.std.specs.Str.{bytes_eq};
ghost use Rattle.ddf_config_records.specs.Elements.{record_size};
ghost use Rattle.ddf_config_records.specs.declared.slot.RecordSlot.{RecordSlot};
ghost use Rattle.ddf_config_records.specs.Slots.{slot_written};
ghost use Rattle.ddf_copy.specs.Sections.{bytes_in};
ghost use Rattle.ddf_copy.specs.Whole.{IsWhole, sections_counted};
ghost use Rattle.ddf_copy.specs.Written.{are_same, is_level, slot_counted, slot_counted_at};

use crate::raw::Raw;
use crate::reading::Whole;
use ddf_bytes::Sector;
use ddf_config_records::RecordSlot;
use ddf_header::Geometry;

/// Whether two copies have one sequence, and the same in each section that is read. All unused slots count as equal.
#[tactic(auto, unfolding(crate::specs::Written::is_level, crate::specs::Written::counted))]
pub(crate) fn is_level(one: &Whole, other: &Whole) -> bool
    requires one { IsWhole one.now }
    requires other { IsWhole other.now }
    ensures { result ≡ is_level one.now.copy other.now.copy }
{
    one.copy.header.sequence == other.copy.header.sequence
        && have_same_sections(&one.raw, &other.raw)
        && have_level_slots(one, other)
}

/// Whether all sections but the configuration records hold the same bytes.
fn have_same_sections(one: &Raw, other: &Raw) -> bool
    ensures { result ≡ are_same (sections_counted one.now) (sections_counted other.now) }
{
    one.controller == other.controller
        && are_equal(one.disks.items(), other.disks.items())
        && are_equal(one.arrays.items(), other.arrays.items())
        && one.disk_data == other.disk_data
        && are_equal(one.bad_blocks.items(), other.bad_blocks.items())
}

fn are_equal(one: &[Sector], other: &[Sector]) -> bool
    ensures { result ≡ bytes_eq (bytes_in one.now) (bytes_in other.now) }
{
    one.as_flattened() == other.as_flattened()
}

/// Whether each slot of the configuration records is the same or unused in both.
fn have_level_slots(one: &Whole, other: &Whole) -> bool
    requires one { IsWhole one.now }
    requires other { IsWhole other.now }
    ensures { result ≡ are_same (map (slot_counted one.now.copy.header.geometry) one.now.copy.slots) (map (slot_counted other.now.copy.header.geometry) other.now.copy.slots) }
{
    let count = one.copy.slots.items().len();
    count == other.copy.slots.items().len() && are_all_counted(one, other, count)
}

fn are_all_counted(one: &Whole, other: &Whole, count: usize) -> bool
    requires one { IsWhole one.now }
    requires other { IsWhole other.now }
    requires within { count ≡ length one.now.copy.slots }
    requires other_within { count ≡ length other.now.copy.slots }
    ensures { result ≡ list_all (λ index. bytes_eq (slot_counted_at one.now.copy index) (slot_counted_at other.now.copy index)) (range_with_len 0 count) }
{
    (0..count).all(|index| counted(one, index) == counted(other, index))
}

/// The bytes of a slot that count.
fn counted(whole: &Whole, index: usize) -> &[u8]
    requires whole { IsWhole whole.now }
    requires within { index < length whole.now.copy.slots }
    ensures { result.now ≡ slot_counted_at whole.now.copy index }
{
    match &whole.copy.slots.items()[index] {
        RecordSlot::Unused(_) => &[],
        _ => slot_bytes(whole, index),
    }
}

fn slot_bytes(whole: &Whole, index: usize) -> &[u8]
    requires whole { IsWhole whole.now }
    requires within { index < length whole.now.copy.slots }
    ensures { (slot : RecordSlot) → slice_get whole.now.copy.slots index ≡ Some slot → result.now ≡ slot_written whole.now.copy.header.geometry slot }
{
    let size = record_size(&whole.copy.header.geometry);
    &whole.raw.records.items().as_flattened()[index * size..index * size + size]
}

/// The bytes of each slot.
fn record_size(geometry: &Geometry) -> usize
    ensures { result ≡ record_size geometry.now }
{
    512 * usize::from(geometry.record_length)
}
