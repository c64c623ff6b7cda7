//! The configuration that copies of one group give together.
ghost use Rattle.std.specs.Prelude.{◌≡◌, ◌++◌, ◌∷◌, [], ◌≤◌, ◌<◌, ◌^◌, filter_map, map, nat_eq, IfOk, IfSome, OnOk, None, option_map};
ghost use Rattle.std.specs.Option.{option_to_list};
ghost use Rattle.std.specs.List.{range_with_len, IsDistinct};
ghost use Rattle.std.specs.Str.{bytes_eq};
ghost use Rattle.indexmap.specs.IndexMap.{get};
ghost use Rattle.ddf_view.specs.View.{array_of, disk_of};
ghost use Rattle.ddf_view.specs.Readable.{DoNamesDiffer};
ghost use Rattle.ddf_view.specs.Spares.{member_among, member_entry_among};
ghost use Rattle.ddf_view.specs.Reading.{
  array_entry_in,
  array_in,
  arrays_in,
  count_in,
  disks_in,
  element_in,
  elements_in,
  member_entry_in,
  read,
};

use crate::View;
use crate::arrays::array_of;
use crate::disks::disk_of;
use crate::element_reading::element_in;
use crate::flags::is_missing;
use crate::spare_reading::{ArraySpares, spare_among, spares_in};
use crate::together::{array_rows, count_in, disk_rows, secondary_in};
use ddf_bytes::{Guid, NoMemory, Seq};
use ddf_config::{Array, Config, ElementPlan, Member, put_last};
use ddf_tables::{ArrayEntry, ArrayRow, DiskEntry, DiskRow};
use indexmap::IndexMap;
use std::alloc::Global;

/// The elements that views give an array. One that no view holds is None.
fn elements_of(
    alloc: Global,
    views: &[View],
    array: &Guid,
) -> Result<Vec<Option<ElementPlan>>, NoMemory>
    ensures { IfOk result (λ elements. elements.items ≡ map (element_in (disks_in views.now) (elements_in views.now) array.now) (range_with_len 0 (count_in (elements_in views.now) array.now))) }
{
    let rows = disk_rows(views);
    let count = count_in(views, array);
    let mut elements = Vec::new(alloc);
    for index in 0..count {
        elements.push(element_in(rows, views, array, index))?;
    }
    Ok(elements)
}

#[tactic(auto, unfolding(crate::specs::Reading::array_in))]
fn array_in(alloc: Global, views: &[View], entry: &ArrayEntry) -> Result<Array, NoMemory>
    ensures { IfOk result (λ array. array ≡ array_in (disks_in views.now) (elements_in views.now) entry.now) }
{
    let elements = elements_of(alloc, views, &entry.guid)?;
    Ok(Array {
        name: entry.name,
        number: entry.number,
        secondary: secondary_in(views, &entry.guid),
        elements: Seq::new(elements),
        state: entry.state,
        init: entry.init,
    })
}

fn member_among(alloc: Global, all: &[ArraySpares], disk: &DiskEntry) -> Result<Member, NoMemory>
    ensures { IfOk result (λ member. member ≡ member_among all.now disk.now) }
{
    let spare = spare_among(alloc, all, disk)?;
    Ok(Member {
        guid: disk.guid,
        size: disk.size,
        missing: is_missing(disk),
        spare,
    })
}

/// Puts the disk of a row that is used behind the other members.
fn put_member(
    alloc: Global,
    all: &[ArraySpares],
    members: &mut IndexMap<u32, Member>,
    row: &DiskRow,
) -> Result<(), NoMemory>
    requires { IfSome (disk_of row.now) (λ disk. get nat_eq members.old disk.reference ≡ None) }
    ensures { OnOk result (members.new.entries ≡ members.old.entries ++ option_to_list (option_map (member_entry_among all.now) (disk_of row.now))) }
{
    match disk_of(row) {
        Some(disk) => {
            let member = member_among(alloc, all, &disk)?;
            put_last(members, disk.reference, member)
        }
        None => Ok(()),
    }
}

/// Puts the array of a row that is used behind the other arrays.
fn put_array(
    alloc: Global,
    views: &[View],
    arrays: &mut IndexMap<Guid, Array>,
    row: &ArrayRow,
) -> Result<(), NoMemory>
    requires { IfSome (array_of row.now) (λ array. get bytes_eq arrays.old array.guid ≡ None) }
    ensures { OnOk result (arrays.new.entries ≡ arrays.old.entries ++ option_to_list (option_map (array_entry_in views.now) (array_of row.now))) }
{
    match array_of(row) {
        Some(entry) => {
            let array = array_in(alloc, views, &entry)?;
            put_last(arrays, entry.guid, array)
        }
        None => Ok(()),
    }
}

fn members_among(
    alloc: Global,
    all: &[ArraySpares],
    rows: &[DiskRow],
) -> Result<IndexMap<u32, Member>, NoMemory>
    requires { IsDistinct nat_eq (map (λ disk. disk.reference) (filter_map disk_of rows.now)) }
    ensures { IfOk result (λ members. members.entries ≡ map (member_entry_among all.now) (filter_map disk_of rows.now)) }
{
    let mut members = IndexMap::new(alloc);
    for row in rows {
        put_member(alloc, all, &mut members, row)?;
    }
    Ok(members)
}

/// The members that views give.
fn members_in(alloc: Global, views: &[View]) -> Result<IndexMap<u32, Member>, NoMemory>
    requires { DoNamesDiffer views.now }
    ensures { IfOk result (λ members. members.entries ≡ map (member_entry_in views.now) (disks_in views.now)) }
{
    let all = spares_in(alloc, views, array_rows(views))?;
    members_among(alloc, &all, disk_rows(views))
}

fn arrays_in(
    alloc: Global,
    views: &[View],
    rows: &[ArrayRow],
) -> Result<IndexMap<Guid, Array>, NoMemory>
    requires { IsDistinct bytes_eq (map (λ array. array.guid) (filter_map array_of rows.now)) }
    ensures { IfOk result (λ arrays. arrays.entries ≡ map (array_entry_in views.now) (filter_map array_of rows.now)) }
{
    let mut arrays = IndexMap::new(alloc);
    for row in rows {
        put_array(alloc, views, &mut arrays, row)?;
    }
    Ok(arrays)
}

/// The configuration of a group at a sequence, as these views give it (SNIA DDF 2.0): members and arrays are those of the first,
/// each element is that of the first that holds its record, and its positions in sync and rebuild rows come from the first of
/// those that has valid notes.
///
/// # Errors
/// Memory ran out.
#[tactic(auto, unfolding(crate::specs::Reading::read))]
pub fn read(alloc: Global, group: Guid, sequence: u32, views: &[View]) -> Result<Config, NoMemory>
    requires { DoNamesDiffer views.now }
    ensures { IfOk result (λ config. config ≡ read group sequence views.now) }
{
    let members = members_in(alloc, views)?;
    let arrays = arrays_in(alloc, views, array_rows(views))?;
    Ok(Config {
        group,
        sequence,
        members,
        arrays,
    })
}
