//! About how many sectors a command reads or writes that may take long, as far as somebody at a terminal wants to know.
use ddf_assembly::{Group, assemble};
use ddf_bay::Bay;
use ddf_bytes::NoMemory;
use ddf_config::{Array, ElementPlan, Position, array_capacity, is_current};
use ddf_edge::Length;
use ddf_primary::Need;
use ddf_request::named_array;
use ddf_words::{Asked, Command};

/// What a command does with the blocks of an array.
#[derive(Clone, Copy)]
enum Task {
    /// It reads so many.
    Read(u64),
    /// It writes so many.
    Write(u64),
    /// It reads each copy and the parity.
    Scrub,
    /// It writes each copy and the parity.
    Resync,
    /// It fills a position.
    Rebuild,
    /// It copies a position.
    Copyback,
}

/// How many sectors a command asks for that may take long; nothing where none is named, or the group can't be seen.
pub fn length_of<R, B: Bay>(rt: &R, bay: &mut B, asked: &Asked) -> Option<Length>
where
    R: AllocGlobal,
{
    let (name, task) = long_task(&asked.command)?;
    match assemble(rt.alloc(), bay, asked.group) {
        Ok(group) => length_in(rt, &group, name, task),
        Err(_) => None,
    }
}

fn length_in<R: AllocGlobal>(rt: &R, group: &Group, name: &[u8], task: Task) -> Option<Length> {
    match named_array(&group.config().arrays, name) {
        Some((_, array)) => length_over(rt, group, array, task),
        None => None,
    }
}

/// The sectors of a task over an array.
fn length_over<R: AllocGlobal>(rt: &R, group: &Group, array: &Array, task: Task) -> Option<Length> {
    match task {
        Task::Read(count) => Some(Length::Reads(count)),
        Task::Write(count) => match sectors_of_blocks(rt, array, count) {
            Ok(sectors) => Some(Length::Writes(sectors)),
            Err(NoMemory) => None,
        },
        Task::Scrub => Some(Length::Reads(of_cells(array))),
        Task::Resync => Some(Length::Writes(of_resync(array))),
        Task::Rebuild => writes(of_rebuild(group, array)),
        Task::Copyback => writes(of_copyback(array)),
    }
}

fn writes(sectors: Option<u64>) -> Option<Length> {
    match sectors {
        Some(sectors) => Some(Length::Writes(sectors)),
        None => None,
    }
}

/// The array that a command works on that may take long, and what it does there.
fn long_task(command: &Command) -> Option<(&[u8], Task)> {
    match command {
        Command::Read { name, count, .. } => Some((name.items(), Task::Read(*count))),
        Command::Write { name, count, .. } => Some((name.items(), Task::Write(*count))),
        Command::Scrub { name } => Some((name.items(), Task::Scrub)),
        Command::Resync { name } => Some((name.items(), Task::Resync)),
        Command::Rebuild { name } => Some((name.items(), Task::Rebuild)),
        Command::Copyback { name, .. } => Some((name.items(), Task::Copyback)),
        _ => None,
    }
}

/// The sectors that a number of blocks takes, with their copies and their parity. An array has 64 members an element at most, so sixteenths of
/// a sector a block are a small number.
fn sectors_of_blocks<R: AllocGlobal>(rt: &R, array: &Array, count: u64) -> Result<u64, NoMemory> {
    let capacity = array_capacity(rt.alloc(), array)?.max(1);
    let sixteenths = of_cells(array).saturating_mul(16) / capacity;
    Ok(count.saturating_mul(sixteenths) / 16)
}

/// The sectors of all members.
fn of_cells(array: &Array) -> u64 {
    let mut all = 0u64;
    for element in array.elements.items().iter().flatten() {
        let count = element.positions.as_slice().len() as u64;
        all = all.saturating_add(element.blocks.saturating_mul(count));
    }
    all
}

/// Each copy of each block, and the parity.
fn of_resync(array: &Array) -> u64 {
    let mut all = 0u64;
    for element in array.elements.items().iter().flatten() {
        all = all.saturating_add(of_element(element, array.is_mirrored()));
    }
    all
}

fn of_element(element: &ElementPlan, is_mirrored: bool) -> u64 {
    let count = element.positions.as_slice().len() as u64;
    let cells = element.blocks.saturating_mul(count);
    match Need::of_level(element.level, element.qualifier) {
        Need::One | Need::Neighbours(_) => cells,
        _ if is_mirrored => cells,
        Need::AllButOne => element.blocks,
        Need::All => 0,
    }
}

/// The first position that is out of sync, or has lost its disk.
fn of_rebuild(group: &Group, array: &Array) -> Option<u64> {
    for element in array.elements.items().iter().flatten() {
        if has_lost_one(group, element.positions.as_slice()) {
            return Some(element.blocks);
        }
    }
    None
}

/// The first position that a revertible spare holds.
fn of_copyback(array: &Array) -> Option<u64> {
    for element in array.elements.items().iter().flatten() {
        if has_stand_in(element) {
            return Some(element.blocks);
        }
    }
    None
}

fn has_stand_in(element: &ElementPlan) -> bool {
    element.stand_in != 0
        && element.positions.as_slice().iter().any(|position| position.synced
            && position.reference == element.stand_in)
}

/// Whether one of these positions is out of sync, or its disk is away.
fn has_lost_one(group: &Group, positions: &[Position]) -> bool {
    positions.iter().any(|position| {
        !position.synced
            || group.absent().contains(&position.reference)
            || !is_current(&group.config().members, position.reference)
    })
}
