//! The elements of arrays, from their records, their notes and the states of disks.
ghost use Rattle.std.specs.Prelude.{◌≡◌, ◌==◌, ◌≤◌, filter_map, map, length, Option};
ghost use Rattle.std.specs.Option.{option_copied};
ghost use Rattle.std.specs.List.{enumerate_from};
ghost use Rattle.ddf_config_records.specs.Bits.{is_among};
ghost use Rattle.ddf_view.specs.View.{disk_of};
ghost use Rattle.ddf_view.specs.Reading.{element_in, elements_in, is_synced, plan_of, position_of, row_of, stand_in_of};

use crate::View;
use crate::disks::find_disk;
use crate::flags::is_good;
use crate::together::{find_held, find_note};
use arrayvec::ArrayVec;
use ddf_bytes::Guid;
use ddf_config::{ElementPlan, Position};
use ddf_config_records::{Element, Place, SlotNote};
use ddf_tables::DiskRow;

fn is_among(out: &[u16], position: usize) -> bool
    ensures { result ≡ is_among out.now position }
{
    out.iter().any(|other| position == usize::from(*other))
}

/// Whether a position is in sync: by a note, or by the state of its disk where there is none.
fn is_synced(rows: &[DiskRow], note: Option<&SlotNote>, position: usize, place: &Place) -> bool
    ensures { result ≡ is_synced (filter_map disk_of rows.now) (option_copied note.entry) position place.now }
{
    match note {
        Some(note) => !is_among(note.out.items(), position),
        None => match find_disk(rows, place.reference) {
            Some(disk) => is_good(&disk),
            None => false,
        },
    }
}

/// The rows that a rebuild of a position has set so far.
fn row_of(note: Option<&SlotNote>, position: usize) -> u64
    ensures { result ≡ row_of (option_copied note.entry) position }
{
    match note {
        Some(note) => {
            if usize::from(note.position) == position {
                note.row
            } else {
                0
            }
        }
        None => 0,
    }
}

fn position_of(
    rows: &[DiskRow],
    note: Option<&SlotNote>,
    position: usize,
    place: &Place,
) -> Position
    ensures { result ≡ position_of (filter_map disk_of rows.now) (option_copied note.entry) position place.now }
{
    Position {
        reference: place.reference,
        start: place.start,
        synced: is_synced(rows, note, position, place),
        row: row_of(note, position),
    }
}

fn positions_of(
    rows: &[DiskRow],
    note: Option<&SlotNote>,
    places: &[Place],
) -> ArrayVec<Position, 64>
    requires { length places.now ≤ 64 }
    ensures { result.items ≡ map (λ pair. position_of (filter_map disk_of rows.now) (option_copied note.entry) pair.0 pair.1) (enumerate_from 0 places.now) }
{
    let mut positions = ArrayVec::new();
    for (position, place) in places.iter().enumerate() {
        positions.push(position_of(rows, note, position, place));
    }
    positions
}

/// The disk that stands in, 0 for none: by a note alone.
fn stand_in_of(note: Option<&SlotNote>) -> u32
    ensures { result ≡ stand_in_of (option_copied note.entry) }
{
    match note {
        Some(note) => note.stand_in,
        None => 0,
    }
}

/// The element of a record, by the states of the disks and by a note, where there is one.
#[tactic(auto, unfolding(crate::specs::Reading::plan_of))]
pub(crate) fn plan_of(rows: &[DiskRow], note: Option<&SlotNote>, element: &Element) -> ElementPlan
    ensures { result ≡ plan_of (filter_map disk_of rows.now) (option_copied note.entry) element.now }
{
    ElementPlan {
        level: element.level,
        qualifier: element.qualifier,
        strip: element.strip,
        blocks: element.blocks,
        stand_in: stand_in_of(note),
        positions: positions_of(rows, note, element.members.as_slice()),
    }
}

/// The element that views hold at a place of an array.
pub(crate) fn element_in(
    rows: &[DiskRow],
    views: &[View],
    array: &Guid,
    index: usize,
) -> Option<ElementPlan>
    ensures { result ≡ element_in (filter_map disk_of rows.now) (elements_in views.now) array.now index }
{
    match find_held(views, array, index) {
        Some(held) => Some(plan_of(rows, find_note(views, array, index), held.element)),
        None => None,
    }
}
