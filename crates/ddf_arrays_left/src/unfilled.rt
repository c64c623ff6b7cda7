//! What a `rebuild` left that ended since a disk failed. docs/SCRIPTS.md#after-each-status
use ddf_edge::{LastCall, OneLine};

/// What is known of the call that failed.
#[derive(Clone, Copy)]
pub struct Fault {
    /// The slot of the disk that failed, as the output names it.
    pub slot: usize,
    /// The last call of the command.
    pub last: LastCall,
}

/// Says on standard error which call of a `rebuild` failed, a read of a disk that has what the array needs or a write, what that
/// left, and what is to be done. `filled` is the slot that is being filled.
pub fn tell_unfilled<R: Eprint>(
    rt: &R,
    paths: &[String],
    name: OneLine<'_>,
    filled: Option<usize>,
    fault: Fault,
) {
    let Some(path) = paths.get(fault.slot) else {
        return;
    };
    let slot = fault.slot;
    let path = OneLine(path);
    match (fault.last, filled) {
        (LastCall::Write, Some(target)) if target == slot => tell_target(rt, name, slot, path),
        (LastCall::Write, _) => tell_records(rt, name, slot, path),
        (LastCall::First, None) => tell_sync(rt, name, slot, path),
        (LastCall::First, Some(_)) => {
            tell_source(
                rt,
                name,
                slot,
                path,
                "a read of it, or the sync before that, failed",
            );
        }
        (LastCall::Read, _) => tell_source(rt, name, slot, path, "a read of it failed"),
    }
}

fn tell_target<R: Eprint>(rt: &R, name: OneLine<'_>, slot: usize, path: OneLine<'_>) {
    let _ = eprintln!(rt;
        "ddf: rebuild {name}: slot {slot} ({path}), the disk that is being filled, couldn't be written: replace it, unless the line below says that it is well. No block of the array has changed. Take it out of the arguments, or fail {slot}; make another disk a spare, and give rebuild {name} again"
    );
}

fn tell_records<R: Eprint>(rt: &R, name: OneLine<'_>, slot: usize, path: OneLine<'_>) {
    let _ = eprintln!(rt;
        "ddf: rebuild {name}: the records of slot {slot} ({path}) couldn't be written. No block of the array has changed, and the rows that are noted are kept. Give rebuild {name} again; where it ends so too: docs/FAILED-DISK.md, under 'A second disk fails meanwhile'"
    );
}

fn tell_sync<R: Eprint>(rt: &R, name: OneLine<'_>, slot: usize, path: OneLine<'_>) {
    let _ = eprintln!(rt;
        "ddf: rebuild {name}: a sync of slot {slot} ({path}) failed before anything was written. No block of the array has changed. Give rebuild {name} again; where it ends so too: docs/FAILED-DISK.md"
    );
}

fn tell_source<R: Eprint>(rt: &R, name: OneLine<'_>, slot: usize, path: OneLine<'_>, what: &str) {
    let _ = eprintln!(rt;
        "ddf: rebuild {name}: slot {slot} ({path}) has blocks that no other disk has, and {what}. The spare is as it was, with the rows that are noted, and so is each block of the array. Copy slot {slot} around its unreadable blocks (ddrescue), put the copy in its place, and give rebuild {name} again: docs/RESCUE.md, under 'Image each disk', and docs/FAILED-DISK.md, under 'A second disk fails meanwhile'"
    );
}
