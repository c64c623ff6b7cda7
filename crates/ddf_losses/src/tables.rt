//! How the tables of disks differ that are to be in one group.
use ddf_arrays_left::group_shown;
use ddf_bay::Bay;
use ddf_bytes::{Guid, NoMemory};
use ddf_copy::anchor_of;
use ddf_edge::OneLine;
use ddf_header::{Geometry, RECORDS};

/// How much the tables of a disk hold.
#[derive(Clone, Copy, PartialEq, Eq)]
struct Tables {
    disks: u16,
    arrays: u16,
    members: u16,
    records: u32,
    record: u16,
}

/// Says on standard error which two disks of two groups have tables of different sizes, so that they can't be in one group.
pub fn name_difference<R, B: Bay>(
    rt: &R,
    bay: &mut B,
    paths: &[String],
    named: Option<Guid>,
    other: Guid,
) -> Result<(), NoMemory>
where
    R: Eprint + AllocGlobal,
{
    let mut slots = Vec::new(rt.alloc());
    add_slots(rt, bay, named, &mut slots)?;
    add_slots(rt, bay, Some(other), &mut slots)?;
    let mut first: Option<(usize, Tables)> = None;
    for slot in &slots {
        if let Some(tables) = tables_of(bay, *slot) {
            match first {
                None => first = Some((*slot, tables)),
                Some((before, others)) if others != tables => {
                    tell_tables(rt, paths, before, others);
                    tell_tables(rt, paths, *slot, tables);
                    return Ok(());
                }
                Some(_) => {}
            }
        }
    }
    Ok(())
}

/// The slots of a group's seats.
fn add_slots<R, B: Bay>(
    rt: &R,
    bay: &mut B,
    named: Option<Guid>,
    slots: &mut Vec<usize>,
) -> Result<(), NoMemory>
where
    R: AllocGlobal,
{
    if let Some(group) = group_shown(rt, bay, named)? {
        for seat in group.seats() {
            slots.push(seat.slot)?;
        }
    }
    Ok(())
}

/// How much the tables of a slot's disk hold, by its anchor.
fn tables_of<B: Bay>(bay: &mut B, slot: usize) -> Option<Tables> {
    if slot >= bay.slots() {
        return None;
    }
    match anchor_of(bay, slot) {
        Ok(anchor) => Some(Tables {
            disks: anchor.geometry.max_disks,
            arrays: anchor.geometry.max_arrays,
            members: anchor.geometry.max_members,
            records: records_in(&anchor.geometry),
            record: anchor.geometry.record_length,
        }),
        Err(_) => None,
    }
}

/// How many records a disk has room for.
fn records_in(geometry: &Geometry) -> u32 {
    let record = u32::from(geometry.record_length);
    if record == 0 {
        return 0;
    }
    geometry.sections[RECORDS].length / record
}

fn tell_tables<R: Eprint>(rt: &R, paths: &[String], slot: usize, tables: Tables) {
    if let Some(path) = paths.get(slot) {
        let path = OneLine(path);
        let Tables {
            disks,
            arrays,
            members,
            records,
            record,
        } = tables;
        let _ = eprintln!(rt;
            "ddf: slot {slot} ({path}) has tables for {disks} disks, {arrays} arrays and {members} members of an array, in {records} records of {record} sectors"
        );
    }
}
