//! The two groups of a join, and the step that makes one of them.
ghost use Rattle.std.specs.Prelude.{◌≡◌, ◌≤◌, ◌++◌, ◌∷◌, [], None, length, IfOk};
ghost use Rattle.ddf_import.specs.Clash.{join_cause};
ghost use Rattle.ddf_rewrite.specs.Before.{before};
ghost use Rattle.ddf_view.specs.View.{view_of};
ghost use Rattle.ddf_steps.specs.Full.{full_of};
ghost use Rattle.ddf_joining.specs.Telling.{IsMade, IsSide, array_rows_told, disk_rows_told, entries_full, sides_disks, sides_told, slots_told};
ghost use Rattle.ddf_steps.specs.Trying.{Follows};

use crate::joining::{both_disks, config_joined, full_of_entries};
use crate::told::{both_rows, put_arrays, put_records, telling_copy};
use ddf_bytes::NoMemory;
use ddf_config::{Config, Refusal};
use ddf_config_records::RecordSlot;
use ddf_copy::DiskCopy;
use ddf_seats::{Disk, GroupFault};
use ddf_steps::{Step, full_of, make_step};
use ddf_tables::{ArrayRow, DiskRow};
use ddf_view::View;
use std::alloc::Global;
use std::marker::Model;

/// One of the two groups: its configuration, its disks, and those of them that lead it.
#[derive(Drop)]
pub(crate) struct Side<'a> {
    pub(crate) config: &'a Config,
    pub(crate) disks: &'a [Disk<'a>],
    pub(crate) leaders: &'a [Disk<'a>],
}

impl<'a> Model for Side<'a> {
    ghost use Rattle.ddf_joining.specs.Telling.{SideValue};

    ghost Value = { SideValue };

    ghost view = { λ side. record {
      config = side.config.now;
      disks = side.disks.now;
      leaders = side.leaders.now;
    } };
}

/// The rows of the arrays of both.
fn both_arrays(alloc: Global, native: &Side, other: &Side) -> Result<Vec<ArrayRow>, NoMemory>
    ensures { IfOk result (λ rows. rows.items ≡ array_rows_told native.now.config ++ array_rows_told other.now.config) }
{
    let mut rows = Vec::new(alloc);
    put_arrays(native.config, &mut rows)?;
    put_arrays(other.config, &mut rows)?;
    Ok(rows)
}

/// The records of the arrays of both that their leaders hold.
fn both_records(alloc: Global, native: &Side, other: &Side) -> Result<Vec<RecordSlot>, NoMemory>
    ensures { IfOk result (λ slots. slots.items ≡ slots_told native.now.config native.now.leaders ++ slots_told other.now.config other.now.leaders) }
{
    let mut slots = Vec::new(alloc);
    put_records(alloc, native.config, native.leaders, &mut slots)?;
    put_records(alloc, other.config, other.leaders, &mut slots)?;
    Ok(slots)
}

/// A copy that tells what the leaders of both record, over one of theirs.
fn both_told(
    alloc: Global,
    like: &DiskCopy,
    native: &Side,
    other: &Side,
    rows: Vec<DiskRow>,
    arrays: Vec<ArrayRow>,
) -> Result<DiskCopy, NoMemory>
    requires rows { rows.items ≡ disk_rows_told native.now.leaders ++ disk_rows_told other.now.leaders }
    requires arrays { arrays.items ≡ array_rows_told native.now.config ++ array_rows_told other.now.config }
    requires few { length rows.items ≤ 65535 }
    requires few_arrays { length arrays.items ≤ 65535 }
    ensures { IfOk result (λ copy. before (view_of copy ∷ []) ≡ sides_told native.now other.now) }
{
    let slots = both_records(alloc, native, other)?;
    telling_copy(alloc, like, rows, arrays, slots)
}

/// The step by which two groups become one, whose records are told by a copy, where there is room for it.
fn step_told(
    alloc: Global,
    native: &Side,
    other: &Side,
    copy: &DiskCopy,
    timestamp: u32,
) -> Result<Step, GroupFault>
    requires native { IsSide native.now }
    requires other { IsSide other.now }
    requires cause { join_cause native.now.config other.now.config ≡ None }
    requires few { entries_full native.now other.now ≡ None }
    requires told { before (view_of copy.now ∷ []) ≡ sides_told native.now other.now }
    ensures made { IsMade timestamp native.now other.now result }
    ensures follows { IfOk result (Follows (sides_disks native.now other.now)) }
{
    let config = config_joined(alloc, native.config, other.config)?;
    let disks = both_disks(alloc, native.disks, other.disks)?;
    let leader = View::new(copy);
    let leaders = std::slice::from_ref(&leader);
    let full = full_of(alloc, &disks, leaders, &config, timestamp)?;
    if let Some(table) = full {
        return Err(GroupFault::Refused(Refusal::Full(table)));
    }
    let step = make_step(alloc, config, &disks, leaders, timestamp)?;
    Ok(step)
}

/// The step by which two groups become one, where there is room for it: the configuration of both is written to every disk of both.
///
/// # Errors
/// `Refused` with the table that has none. `Memory` where memory ran out.
pub(crate) fn step_of_both(
    alloc: Global,
    native: &Side,
    other: &Side,
    timestamp: u32,
) -> Result<Step, GroupFault>
    requires native { IsSide native.now }
    requires other { IsSide other.now }
    requires cause { join_cause native.now.config other.now.config ≡ None }
    ensures made { IsMade timestamp native.now other.now result }
    ensures follows { IfOk result (Follows (sides_disks native.now other.now)) }
{
    let rows = both_rows(alloc, native.leaders, other.leaders)?;
    let arrays = both_arrays(alloc, native, other)?;
    let full = full_of_entries(rows.len(), arrays.len());
    if let Some(table) = full {
        return Err(GroupFault::Refused(Refusal::Full(table)));
    }
    let Some(like) = native.disks.first() else {
        return Err(GroupFault::Memory);
    };
    let copy = both_told(alloc, like.copy, native, other, rows, arrays)?;
    step_told(alloc, native, other, &copy, timestamp)
}
