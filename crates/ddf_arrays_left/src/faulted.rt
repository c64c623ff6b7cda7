//! What a command over the blocks of an array left that ended since a disk failed, or that was refused since the array is marked, and
//! the way on. docs/SCRIPTS.md#after-each-status
use crate::arrays_after::lies_on;
use crate::positions::{keeps_parity, lacks_one, slot_filled};
use crate::shown::group_shown;
use crate::uncopied::tell_uncopied;
use crate::unfilled::{Fault, tell_unfilled};
use ddf_assembly::Group;
use ddf_bay::Bay;
use ddf_config::Array;
use ddf_edge::{LastCall, OneLine};
use ddf_request::named_array;
use ddf_words::{Asked, Command};
use std::{fmt, str};

/// What is left of an array.
#[derive(Clone, Copy)]
enum Left {
    /// It keeps its blocks once, and is never marked.
    Once,
    /// It keeps copies, and isn't marked.
    UnmarkedCopies,
    /// It keeps parity, and isn't marked.
    UnmarkedParity,
    /// It is marked, and keeps copies.
    Copies,
    /// It is marked, and keeps parity.
    Parity,
    /// It is marked, and keeps parity, and a disk of it is away.
    Short,
}

impl Left {
    /// Whether the array is marked.
    fn is_marked(self) -> bool {
        matches!(self, Left::Copies | Left::Parity | Left::Short)
    }
}

/// The blocks that a command was to write: the first, and how many.
#[derive(Clone, Copy)]
struct Blocks {
    start: u64,
    count: u64,
}

impl Blocks {
    fn new(start: u64, count: u64) -> Blocks {
        Blocks { start, count }
    }
}

impl fmt::Display for Blocks {
    fn fmt<W: fmt::Write>(&self, f: &mut fmt::Formatter<W>) -> fmt::Result {
        let start = self.start;
        let count = self.count;
        let last = start.saturating_add(count.saturating_sub(1));
        match count {
            0 => write!(f, "no block"),
            1 => write!(f, "block {start}"),
            _ => write!(f, "blocks {start} to {last}"),
        }
    }
}

/// Says on standard error what a `write`, a `resync`, a `rebuild` or a `copyback` left that ended since a disk failed, and the way on.
/// `holder` is the slot of the spare that held the position which a `copyback` takes.
pub fn tell_faulted<R, B: Bay>(
    rt: &R,
    bay: &mut B,
    paths: &[String],
    asked: &Asked,
    holder: Option<usize>,
    fault: Fault,
)
where
    R: Eprint + AllocGlobal,
{
    if let Command::Copyback { .. } = &asked.command {
        return tell_uncopied(rt, bay, paths, asked, holder, fault);
    }
    let name = name_in(&asked.command);
    let (Ok(text), Some((left, filled))) = (str::from_utf8(name), left_by(rt, bay, asked, name))
    else {
        return;
    };
    let text = OneLine(text);
    match &asked.command {
        Command::Write { start, count, .. } => {
            let blocks = Blocks::new(*start, *count);
            if let (Left::UnmarkedParity, LastCall::First) = (left, fault.last) {
                return tell_unseen(rt, text, blocks, fault.slot);
            }
            tell_written(rt, text, blocks, left);
            tell_way(rt, text, left, fault.slot, ", and the same write again");
        }
        Command::Resync { .. } => {
            tell_resynced(rt, text, left);
            tell_way(rt, text, left, fault.slot, "");
        }
        Command::Rebuild { .. } => tell_unfilled(rt, paths, text, filled, fault),
        _ => {}
    }
}

/// Says on standard error what a `write` left, and the way on, that ended since its input or the output failed, where it left a mark.
pub fn tell_cut<R, B: Bay>(rt: &R, bay: &mut B, asked: &Asked)
where
    R: Eprint + AllocGlobal,
{
    let Command::Write { name, start, count } = &asked.command else {
        return;
    };
    let name = name.items();
    if let (Ok(text), Some((left, _))) = (str::from_utf8(name), left_by(rt, bay, asked, name)) {
        if left.is_marked() {
            tell_written(rt, OneLine(text), Blocks::new(*start, *count), left);
        }
    }
}

/// Says on standard error what holds of the blocks of a marked array, and the way on, where a command was refused for the mark: which
/// blocks were being written isn't recorded.
pub fn name_marked<R, B: Bay>(rt: &R, bay: &mut B, asked: &Asked, number: u16)
where
    R: Eprint + AllocGlobal,
{
    if !matches!(number, 23 | 24) {
        return;
    }
    let name = name_in(&asked.command);
    if let (Ok(text), Some((left, _))) = (str::from_utf8(name), left_by(rt, bay, asked, name)) {
        tell_marked(rt, OneLine(text), left);
    }
}

/// The name of the array whose blocks a command is over, nothing where it is none of these.
fn name_in(command: &Command) -> &[u8] {
    match command {
        Command::Read { name, .. } | Command::Write { name, .. } => name.items(),
        Command::Resync { name } | Command::Rebuild { name } | Command::Copyback { name, .. } => {
            name.items()
        }
        _ => &[],
    }
}

/// What is left of an array, where it can be seen, and the slot of the disk of it that is being filled.
fn left_by<R, B: Bay>(
    rt: &R,
    bay: &mut B,
    asked: &Asked,
    name: &[u8],
) -> Option<(Left, Option<usize>)>
where
    R: AllocGlobal,
{
    let Ok(Some(group)) = group_shown(rt, bay, asked.group) else {
        return None;
    };
    match named_array(&group.config().arrays, name) {
        Some((_, array)) => Some((left_of(&group, array), slot_filled(&group, array))),
        None => None,
    }
}

/// What is left of an array of a group.
fn left_of(group: &Group, array: &Array) -> Left {
    let parity = keeps_parity(array);
    let lacks = lacks_one(group.config(), array) || lies_on(array, group.absent());
    match (array.is_redundant(), array.is_marked()) {
        (_, true) if parity && lacks => Left::Short,
        (_, true) if parity => Left::Parity,
        (_, true) => Left::Copies,
        (true, false) if parity => Left::UnmarkedParity,
        (true, false) => Left::UnmarkedCopies,
        (false, false) => Left::Once,
    }
}

/// Says what a `write` left.
fn tell_written<R: Eprint>(rt: &R, name: OneLine<'_>, blocks: Blocks, left: Left) {
    let _ = match left {
        Left::Copies | Left::Parity => eprintln!(rt;
            "ddf: array {name} is marked: {blocks} of it may be old or new, or old on one disk and new on another; the others read as they did, where their own disks can be read. Give resync {name}, and then the same write again"
        ),
        Left::Short => eprintln!(rt;
            "ddf: array {name} is marked, and a disk of it is away: {blocks} of it may be old or new, or neither where that disk held them; the others on the disks that are there read as they did. Bring that disk back, give resync {name}, and the same write again. If it is gone for good: accept {name}, rebuild {name}, and the same write again"
        ),
        Left::UnmarkedCopies | Left::UnmarkedParity => eprintln!(rt;
            "ddf: array {name} isn't marked: of what was to be written all is there, or nothing ({blocks})"
        ),
        Left::Once => eprintln!(rt;
            "ddf: array {name} keeps its blocks once: {blocks} of it may be old or new, and the others read as they did. Where its disks can be written again, give the same write again"
        ),
    };
}

/// Says that a `write` that ended before its first write wrote nothing: a block beside those that it was to write has no source left.
fn tell_unseen<R: Eprint>(rt: &R, name: OneLine<'_>, blocks: Blocks, slot: usize) {
    let _ = eprintln!(rt;
        "ddf: array {name} isn't marked, and nothing of it was written: a block beside {blocks}, which the parity of their rows needs, can't be read from any disk, or a sync of slot {slot} failed. Give the same write again"
    );
    let _ = eprintln!(rt;
        "ddf: where it ends so too: read {name}, block by block, tells which one it is; put the others away, and write whole stripes with that block from a backup: this reads nothing"
    );
}

/// Says what a `resync` left.
fn tell_resynced<R: Eprint>(rt: &R, name: OneLine<'_>, left: Left) {
    let _ = match left {
        Left::Copies | Left::Parity => eprintln!(rt;
            "ddf: array {name} is marked: its copies or its parity may not agree, and each of its blocks reads as it did, where its own disk can be read. Give resync {name} again"
        ),
        Left::Short => eprintln!(rt;
            "ddf: array {name} is marked, and a disk of it is away: each of its blocks on the disks that are there reads as it did. Bring that disk back, and give resync {name}. If it is gone for good: accept {name}, and rebuild {name}"
        ),
        Left::UnmarkedCopies | Left::UnmarkedParity => eprintln!(rt;
            "ddf: array {name} isn't marked: of what was to be written all is there, or nothing, and each of its blocks reads as it did"
        ),
        Left::Once => eprintln!(rt;
            "ddf: array {name} keeps its blocks once, and resync writes none of them. Give resync {name} again"
        ),
    };
}

/// Says what is to be done about the disk of a slot, where the array can do without it.
fn tell_way<R: Eprint>(rt: &R, name: OneLine<'_>, left: Left, slot: usize, again: &str) {
    let _ = match left {
        Left::Parity => eprintln!(rt;
            "ddf: where resync ends so too: accept {name}, make a disk a spare, fail {slot}, rebuild {name}{again}"
        ),
        Left::Copies => eprintln!(rt;
            "ddf: where resync ends so too: make a disk a spare, fail {slot}, resync {name}, rebuild {name}{again}"
        ),
        Left::UnmarkedCopies | Left::UnmarkedParity => eprintln!(rt;
            "ddf: before any other write or resync: make a disk a spare, fail {slot}, rebuild {name}{again}"
        ),
        Left::Short | Left::Once => Ok(()),
    };
}

/// Says what holds of a marked array.
fn tell_marked<R: Eprint>(rt: &R, name: OneLine<'_>, left: Left) {
    let _ = match left {
        Left::Copies | Left::Parity => eprintln!(rt;
            "ddf: array {name} is marked, and which blocks were being written isn't recorded: each of its blocks reads as it did. Give resync {name}, and then this command again"
        ),
        Left::Short => eprintln!(rt;
            "ddf: array {name} is marked, and a disk of it is away; which blocks were being written isn't recorded: each of its blocks on the disks that are there reads as it did. Bring that disk back, and give resync {name}. If it is gone for good: accept {name}, and rebuild {name}"
        ),
        Left::UnmarkedCopies | Left::UnmarkedParity | Left::Once => Ok(()),
    };
}
