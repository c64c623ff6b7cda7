//! The entries of the arrays after a change or a recovery.
ghost use Rattle.std.specs.Prelude.{◌≡◌, map, filter_map, IfOk};
ghost use Rattle.ddf_view.specs.View.{array_of};
ghost use Rattle.ddf_rewrite.specs.Arrays.{array_entry, array_on, arrays_after, find_array};

use ddf_bytes::{Guid, NoMemory};
use ddf_config::{Array, Config};
use ddf_tables::{ArrayEntry, ArrayRow};
use ddf_view::array_of;
use indexmap::IndexMap;
use std::alloc::Global;

/// The entry of an array among these rows.
fn find_array(rows: &[ArrayRow], guid: &Guid) -> Option<ArrayEntry>
    ensures { result ≡ find_array guid.now (filter_map array_of rows.now) }
{
    rows.iter()
        .filter_map(|row| array_of(row))
        .find(|entry| entry.guid == *guid)
}

/// The named fields of an array's entry.
fn array_entry(guid: Guid, array: &Array) -> ArrayEntry
    ensures { result ≡ array_entry (guid, array.now) }
{
    ArrayEntry {
        guid,
        number: array.number,
        state: array.state,
        init: array.init,
        name: array.name,
        rest: [0; 64],
    }
}

/// The entry of an array on a disk that has these rows.
fn array_on(own: &[ArrayRow], guid: Guid, array: &Array) -> ArrayEntry
    ensures { result ≡ array_on (filter_map array_of own.now) (guid, array.now) }
{
    let entry = array_entry(guid, array);
    match find_array(own, &guid) {
        Some(old) => entry.over(Some(&old)),
        None => entry.over(None),
    }
}

/// The entries of arrays on a disk that has these rows, in table order.
fn entries_of(
    alloc: Global,
    own: &[ArrayRow],
    arrays: &IndexMap<Guid, Array>,
) -> Result<Vec<ArrayEntry>, NoMemory>
    ensures { IfOk result (λ entries. entries.items ≡ map (array_on (filter_map array_of own.now)) arrays.now.entries) }
{
    let mut entries = Vec::new(alloc);
    for (guid, array) in arrays {
        entries.push(array_on(own, *guid, array))?;
    }
    Ok(entries)
}

/// The entries of the configuration's arrays on a disk that has these rows.
#[tactic(auto, unfolding(crate::specs::Arrays::arrays_after))]
pub(crate) fn arrays_after(
    alloc: Global,
    config: &Config,
    own: &[ArrayRow],
) -> Result<Vec<ArrayEntry>, NoMemory>
    ensures { IfOk result (λ entries. entries.items ≡ arrays_after config.now (filter_map array_of own.now)) }
{
    entries_of(alloc, own, &config.arrays)
}
