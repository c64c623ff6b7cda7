//! The numbers behind a refusal: how much room there is, how much was asked for, and how much a table holds. docs/REFUSALS.md#by-number
use crate::shape::name_shape;
use crate::spares::name_spares;
use ddf_assembly::{Group, assemble};
use ddf_bay::Bay;
use ddf_bytes::NoMemory;
use ddf_config::{extents, least_start, ranges_on};
use ddf_copy::anchor_of;
use ddf_disk_commands::layout_for;
use ddf_edge::OneLine;
use ddf_refusals::Refused;
use ddf_words::{Asked, Command, Creation, Wish};

/// Says on standard error by how much a command was refused that makes disks or arrays, or fills a spare.
pub fn name_numbers<R, B: Bay>(
    rt: &R,
    bay: &mut B,
    paths: &[String],
    asked: &Asked,
    heard: Refused,
) -> Result<(), NoMemory>
where
    R: Eprint + AllocGlobal,
{
    match (&asked.command, heard.number) {
        (Command::Change(Wish::Create(creation)), 19) => name_shape(rt, creation),
        (Command::Change(Wish::Create(creation)), 20) => {
            return name_room(rt, bay, paths, asked, creation);
        }
        (Command::Label { large, slots, .. }, 28) => {
            let layout = layout_for(*large, slots.items(), bay.slots());
            name_small(rt, bay, paths, slots.items(), layout.least_sectors());
        }
        (Command::Label { .. }, 21) => {
            let count = paths.len();
            let _ = eprintln!(rt; "ddf: {count} disks are named, and a group has at most 63");
        }
        (Command::Rebuild { name }, 28) => {
            return name_spares(rt, bay, paths, asked, name.items());
        }
        (_, 21) => return name_tables(rt, bay, paths, asked),
        _ => {}
    }
    Ok(())
}

/// Names each of these slots, or of all where there are none, whose disk is too small to be labelled, for it has less than so many sectors.
fn name_small<R: Eprint, B: Bay>(rt: &R, bay: &B, paths: &[String], slots: &[u8], least: u64) {
    for (slot, path) in paths.iter().enumerate() {
        let is_named = slots.is_empty() || slots.iter().any(|other| usize::from(*other) == slot);
        if is_named && slot < bay.slots() && bay.size(slot) < least {
            let size = bay.size(slot);
            let path = OneLine(path);
            let _ = eprintln!(rt;
                "ddf: slot {slot} ({path}) has {size} sectors of the {least} that it needs"
            );
        }
    }
}

/// Names the free run of each disk of a new array that has too little.
fn name_room<R, B: Bay>(
    rt: &R,
    bay: &mut B,
    paths: &[String],
    asked: &Asked,
    creation: &Creation,
) -> Result<(), NoMemory>
where
    R: Eprint + AllocGlobal,
{
    let Ok(group) = assemble(rt.alloc(), bay, asked.group) else {
        return Ok(());
    };
    let strip = strip_of(creation.code);
    for element in creation.elements.items() {
        for slot in element.slots.items() {
            let free = free_on(rt, &group, usize::from(*slot), strip)?;
            if free < element.blocks {
                tell_room(rt, paths, usize::from(*slot), free, element.blocks);
            }
        }
    }
    Ok(())
}

fn tell_room<R: Eprint>(rt: &R, paths: &[String], slot: usize, free: u64, wanted: u64) {
    if let Some(path) = paths.get(slot) {
        let path = OneLine(path);
        let _ = eprintln!(rt;
            "ddf: slot {slot} ({path}): its largest free run has {free} blocks, and {wanted} are wanted"
        );
    }
}

/// The sectors of a strip.
pub fn strip_of(code: u8) -> u64 {
    if code < 32 { 1 << code } else { 1 }
}

/// The most blocks of one free run on the disk of a slot, that begins at a whole strip.
pub fn free_on<R: AllocGlobal>(
    rt: &R,
    group: &Group,
    slot: usize,
    strip: u64,
) -> Result<u64, NoMemory> {
    let Some(seat) = group.seats().iter().find(|seat| seat.slot == slot) else {
        return Ok(0);
    };
    let config = group.config();
    let Some(member) = config.members.get(&seat.reference) else {
        return Ok(0);
    };
    let all = extents(rt.alloc(), &config.arrays)?;
    let taken = ranges_on(rt.alloc(), all.as_slice(), seat.reference)?;
    Ok(most_blocks(taken.as_slice(), member.size.min(seat.floor), strip.max(1)))
}

/// The most blocks for which there is a start, found by halving.
fn most_blocks(taken: &[(u64, u64)], size: u64, strip: u64) -> u64 {
    if strip == 0 {
        return 0;
    }
    let mut most = 0u64;
    let mut past = size.saturating_add(1);
    for _ in 0..64 {
        let middle = most.saturating_add(past.saturating_sub(most) / 2);
        if middle <= most {
            return most;
        }
        if least_start(taken, size, strip, middle).is_some() {
            most = middle;
        } else {
            past = middle;
        }
    }
    most
}

/// Names how much the tables of the group's disks hold.
fn name_tables<R, B: Bay>(
    rt: &R,
    bay: &mut B,
    paths: &[String],
    asked: &Asked,
) -> Result<(), NoMemory>
where
    R: Eprint + AllocGlobal,
{
    let Ok(group) = assemble(rt.alloc(), bay, asked.group) else {
        return Ok(());
    };
    let members = group.config().members.len();
    let arrays = group.config().arrays.len();
    let _ = eprintln!(rt; "ddf: the group lists {members} disks and {arrays} arrays");
    for seat in group.seats() {
        if let Some(path) = paths.get(seat.slot) {
            tell_tables(rt, bay, seat.slot, path);
        }
    }
    Ok(())
}

fn tell_tables<R: Eprint, B: Bay>(rt: &R, bay: &mut B, slot: usize, path: &str) {
    if slot >= bay.slots() {
        return;
    }
    if let Ok(anchor) = anchor_of(bay, slot) {
        let path = OneLine(path);
        let disks = anchor.geometry.max_disks;
        let arrays = anchor.geometry.max_arrays;
        let members = anchor.geometry.max_members;
        let _ = eprintln!(rt;
            "ddf: slot {slot} ({path}) has tables for {disks} disks, {arrays} arrays and {members} members of an array"
        );
    }
}
