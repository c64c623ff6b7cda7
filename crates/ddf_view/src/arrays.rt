//! The used entries of the virtual disk records.
ghost use Rattle.std.specs.Prelude.{◌≡◌, filter_map};
ghost use Rattle.std.specs.Ordering.{nat_cmp};
ghost use Rattle.std.specs.List.{list_all, zip};
ghost use Rattle.std.specs.Cmp.Lexicographic.{pointwise, slice_cmp};
ghost use Rattle.std.specs.Str.{bytes_eq};
ghost use Rattle.ddf_view.specs.View.{array_of};
ghost use Rattle.ddf_view.specs.Differ.{array_differs, differing_arrays, least, numbered_array, same_array, same_array_row};

use ddf_bytes::Guid;
use ddf_tables::{ArrayEntry, ArrayRow};

/// The array of a row that is used.
pub fn array_of(row: &ArrayRow) -> Option<ArrayEntry>
    ensures { result ≡ array_of row.now }
{
    match row {
        ArrayRow::Entry(entry) => Some(*entry),
        ArrayRow::Unused(_) => None,
    }
}

/// An array with its place among the used entries.
fn numbered_array(rows: &[ArrayRow], guid: &Guid) -> Option<(usize, ArrayEntry)>
    ensures { result ≡ numbered_array guid.now (filter_map array_of rows.now) }
{
    rows.iter()
        .filter_map(array_of)
        .enumerate()
        .find(|(_, array)| array.guid == *guid)
}

fn same_array(one: &(usize, ArrayEntry), other: &(usize, ArrayEntry)) -> bool
    ensures { result ≡ same_array one.now other.now }
{
    one.0 == other.0
        && one.1.number == other.1.number
        && one.1.state == other.1.state
        && one.1.init == other.1.init
        && one.1.name == other.1.name
}

/// Whether two tables differ in the array with this GUID.
fn array_differs(one: &[ArrayRow], other: &[ArrayRow], guid: &Guid) -> bool
    ensures { result ≡ array_differs (filter_map array_of one.now) (filter_map array_of other.now) guid.now }
{
    match (numbered_array(one, guid), numbered_array(other, guid)) {
        (Some(first), Some(second)) => !same_array(&first, &second),
        (None, None) => false,
        (Some(_), None) | (None, Some(_)) => true,
    }
}

/// Whether two rows at one place of two tables have one array alike, or none.
fn same_array_row(one: &ArrayRow, other: &ArrayRow) -> bool
    ensures { result ≡ same_array_row one.now other.now }
{
    match (one, other) {
        (ArrayRow::Entry(first), ArrayRow::Entry(second)) => {
            first.guid == second.guid && same_array(&(0, *first), &(0, *second))
        }
        (ArrayRow::Unused(_), ArrayRow::Unused(_)) => true,
        (ArrayRow::Entry(_), ArrayRow::Unused(_)) | (ArrayRow::Unused(_), ArrayRow::Entry(_)) => {
            false
        }
    }
}

fn each_same_array(one: &[ArrayRow], other: &[ArrayRow]) -> bool
    ensures { result ≡ list_all (λ pair. same_array_row pair.0 pair.1) (zip one.now other.now) }
{
    one.iter()
        .zip(other)
        .all(|(first, second)| same_array_row(first, second))
}

/// Whether two tables have the same arrays at the same places.
fn same_arrays(one: &[ArrayRow], other: &[ArrayRow]) -> bool
    ensures { result ≡ pointwise same_array_row one.now other.now }
{
    one.len() == other.len() && each_same_array(one, other)
}

/// The least GUID of an array in which two tables differ. Where each row is as the other's no array is looked up.
pub(crate) fn least_array(one: &[ArrayRow], other: &[ArrayRow]) -> Option<Guid>
    ensures { result ≡ least (slice_cmp nat_cmp) (differing_arrays (filter_map array_of one.now) (filter_map array_of other.now)) }
{
    if same_arrays(one, other) {
        None
    } else {
        least_of_arrays(one, other)
    }
}

/// The least GUID of an array in which two tables differ, by the arrays of both.
fn least_of_arrays(one: &[ArrayRow], other: &[ArrayRow]) -> Option<Guid>
    ensures { result ≡ least (slice_cmp nat_cmp) (differing_arrays (filter_map array_of one.now) (filter_map array_of other.now)) }
{
    one.iter()
        .filter_map(array_of)
        .chain(other.iter().filter_map(array_of))
        .map(|array| array.guid)
        .filter(|guid| array_differs(one, other, guid))
        .min()
}
