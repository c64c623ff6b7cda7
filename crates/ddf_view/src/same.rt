//! Elements and records that are the same, field by field.
ghost use Rattle.std.specs.Prelude.{◌≡◌, ◌==◌, ◌&&◌, is_some, length};
ghost use Rattle.std.specs.List.{list_all, zip};
ghost use Rattle.std.specs.Cmp.Lexicographic.{pointwise};
ghost use Rattle.std.specs.Option.{option_copied};
ghost use Rattle.ddf_view.specs.Shows.{same_place, same_plan, same_position};
ghost use Rattle.ddf_view.specs.Differ.{same_held, same_notes, same_record};

use crate::HeldRecord;
use crate::element_reading::plan_of;
use ddf_config::{ElementPlan, Position};
use ddf_config_records::{Element, SlotNote};

fn same_place(one: &Position, other: &Position) -> bool
    ensures { result ≡ same_place one.now other.now }
{
    one.reference == other.reference && one.start == other.start
}

fn same_position(one: &Position, other: &Position) -> bool
    ensures { result ≡ same_position one.now other.now }
{
    same_place(one, other) && one.synced == other.synced && one.row == other.row
}

fn each_same_place(one: &[Position], other: &[Position]) -> bool
    ensures { result ≡ list_all (λ pair. same_place pair.0 pair.1) (zip one.now other.now) }
{
    one.iter()
        .zip(other)
        .all(|(first, second)| same_place(first, second))
}

fn each_same_position(one: &[Position], other: &[Position]) -> bool
    ensures { result ≡ list_all (λ pair. same_position pair.0 pair.1) (zip one.now other.now) }
{
    one.iter()
        .zip(other)
        .all(|(first, second)| same_position(first, second))
}

/// Whether two lists of positions lie at the same places.
fn same_places(one: &[Position], other: &[Position]) -> bool
    ensures { result ≡ pointwise same_place one.now other.now }
{
    one.len() == other.len() && each_same_place(one, other)
}

/// Whether two lists of positions are the same.
fn same_positions(one: &[Position], other: &[Position]) -> bool
    ensures { result ≡ pointwise same_position one.now other.now }
{
    one.len() == other.len() && each_same_position(one, other)
}

fn have_same_level(one: &ElementPlan, other: &ElementPlan) -> bool
    ensures { result ≡ (one.now.level == other.now.level && one.now.qualifier == other.now.qualifier && one.now.strip == other.now.strip && one.now.blocks == other.now.blocks) }
{
    one.level == other.level
        && one.qualifier == other.qualifier
        && one.strip == other.strip
        && one.blocks == other.blocks
}

/// Whether two elements are the same. Without notes the positions in sync, the rebuild rows and the disk that stands in don't count.
pub(crate) fn same_plan(note: Option<&SlotNote>, one: &ElementPlan, other: &ElementPlan) -> bool
    ensures { result ≡ same_plan (is_some (option_copied note.entry)) one.now other.now }
{
    if !have_same_level(one, other) {
        return false;
    }
    match note {
        Some(_) => {
            one.stand_in == other.stand_in
                && same_positions(one.positions.as_slice(), other.positions.as_slice())
        }
        None => same_places(one.positions.as_slice(), other.positions.as_slice()),
    }
}

/// Whether two records are the same in all named fields but the timestamp and the block size.
#[tactic(auto, unfolding(crate::specs::Differ::same_record))]
pub fn same_record(one: &Element, other: &Element) -> bool
    ensures { result ≡ same_record one.now other.now }
{
    one.array == other.array
        && one.sequence == other.sequence
        && one.strip == other.strip
        && one.level == other.level
        && one.qualifier == other.qualifier
        && one.elements == other.elements
        && one.index == other.index
        && one.secondary == other.secondary
        && one.blocks == other.blocks
        && one.size == other.size
        && one.spares == other.spares
        && one.members.as_slice() == other.members.as_slice()
}

/// Whether two notes tell the same of the positions of their records, or one of them is missing.
fn same_notes(one: &HeldRecord, other: &HeldRecord) -> bool
    ensures { result ≡ same_notes one.now other.now }
{
    one.note.is_none()
        || other.note.is_none()
        || {
            let first = plan_of(&[], one.note, one.element);
            let second = plan_of(&[], other.note, other.element);
            same_plan(one.note, &first, &second)
        }
}

/// Whether two records of one element, with their notes, are the same.
pub(crate) fn same_held(one: &HeldRecord, other: &HeldRecord) -> bool
    ensures { result ≡ same_held one.now other.now }
{
    same_record(one.element, other.element) && same_notes(one, other)
}
