//! Images that are opened, and how far their records reach.
ghost use Rattle.std.specs.Prelude.{◌≤◌, length};

use ddf_bay::{Bay, FileBay};
use ddf_bytes::NoMemory;
use ddf_edge::{Failure, any_locked, first_unopened, open_disks, reason_of};
use ddf_fenced::Fenced;
use ddf_heard::Heard;
use ddf_shortened::{Ends, Shortened};
use ddf_words::Command;
use std::fs::File;
use std::rt::{Clock, Files};

/// Disks as far as their records reach.
pub type Reached<R> = Fenced<Shortened<FileBay<Heard<R>>>>;

/// Opens the disks, and sees them as far as their records reach.
pub(crate) fn reached_disks<R>(
    rt: &R,
    paths: &[String],
    command: &Command,
) -> Result<Reached<R>, Failure>
where
    R: Files<File = File> + Clock + Eprint + AllocGlobal + Clone + Drop,
    requires { length paths.now ≤ 64 }
{
    let files = open_disks(rt, paths, command)?;
    check_opened(&files, command)?;
    Ok(reached_by(rt, files, command)?)
}

/// Whether a command may write to the disks of a group, and to go on without those that are away.
pub(crate) fn changes_group(command: &Command) -> bool {
    let traits = command.traits();
    traits.takes_group && traits.may_write
}

/// Whether a command may go on with the disks that could be opened.
fn check_opened<R: Files<File = File>>(
    files: &FileBay<Heard<R>>,
    command: &Command,
) -> Result<(), Failure> {
    if changes_group(command) {
        if let Some(why) = first_unopened(files) {
            return Err(Failure::Unopened(reason_of(&why)));
        }
    } else if command.traits().takes_group && any_locked(files) {
        return Err(Failure::Locked);
    }
    Ok(())
}

/// The disks as far as their records reach, and for `label`, which makes disks of the standard, to their ends. A disk of which it couldn't be read where they
/// end fails each call, as one whose anchor can't be read does.
// argued: that `label` sees each disk to its end, and no other command does, and that a disk fails where the look at its end did, for all bays are made of
// what this function answers.
fn reached_by<R: Files<File = File> + AllocGlobal>(
    rt: &R,
    files: FileBay<Heard<R>>,
    command: &Command,
) -> Result<Reached<R>, NoMemory> {
    let bay = match command {
        Command::Label { .. } => Shortened::whole(files),
        _ => Shortened::new(files),
    };
    let unread = unread_slots(rt, bay.ends(), bay.slots())?;
    Ok(Fenced::new(bay, unread))
}

/// Marks those of the first slots of which the look failed.
fn unread_slots<R: AllocGlobal>(rt: &R, ends: Ends, slots: usize) -> Result<Vec<bool>, NoMemory> {
    let mut unread = Vec::new(rt.alloc());
    for slot in 0..slots {
        unread.push(ends.is_unread(slot))?;
    }
    Ok(unread)
}
