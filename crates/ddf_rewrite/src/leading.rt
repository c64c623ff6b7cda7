//! What the leaders of a group record of an element.
ghost use Rattle.std.specs.Prelude.{◌≡◌, filter_map, map};
ghost use Rattle.std.specs.List.{list_any};
ghost use Rattle.std.specs.Str.{bytes_eq};
ghost use Rattle.ddf_view.specs.View.{array_of};
ghost use Rattle.ddf_rewrite.specs.Before.{before, is_listed, leading_record};

use ddf_bytes::Guid;
use ddf_tables::ArrayRow;
use ddf_view::{HeldRecord, View, array_of, find_held};

/// Whether these rows list an array.
fn lists(rows: &[ArrayRow], array: &Guid) -> bool
    ensures { result ≡ list_any (λ guid. bytes_eq guid array.now) (map (λ entry. entry.guid) (filter_map array_of rows.now)) }
{
    rows.iter()
        .filter_map(|row| array_of(row))
        .map(|entry| entry.guid)
        .any(|guid| guid == *array)
}

/// Whether the lowest leader's table lists an array.
fn is_listed(leaders: &[View], array: &Guid) -> bool
    ensures { result ≡ is_listed (before leaders.now) array.now }
{
    match leaders.first() {
        Some(leader) => lists(leader.array_rows(), array),
        None => false,
    }
}

/// The record of an element, of the lowest leader that holds it. Of an array that isn't listed there is none.
pub(crate) fn leading_record<'a>(
    leaders: &[View<'a>],
    array: &Guid,
    index: usize,
) -> Option<HeldRecord<'a>>
    ensures { result ≡ leading_record (before leaders.now) array.now index }
{
    if is_listed(leaders, array) {
        find_held(leaders, array, index)
    } else {
        None
    }
}
