//! The disks that a command gets, as one bay.
ghost use Rattle.std.specs.Prelude.{◌≤◌, length};

use crate::bad_log::name_log;
use crate::opened::{Reached, reached_disks};
use ddf_bay::Bay;
use ddf_boxed::Boxed;
use ddf_bytes::NoMemory;
use ddf_edge::{Failure, name_failed};
use ddf_hidden_logs::Honoured;
use ddf_linux::Turned;
use ddf_shortened::Ends;
use ddf_update::NewLayout;
use ddf_words::Command;
use std::alloc::Global;
use std::fs::File;
use std::rt::{Clock, Files};

/// The disks that a command gets, one a slot. What they are turned by is kilobytes, so they are on the heap.
pub type Disks<R> = Boxed<Honoured<Boxed<Turned<Reached<R>>>>>;

/// Opens the disks that a command names, for reading alone, or for writing too where the command may write. With `founds` new disks of that layout
/// are sealed in Linux's kind.
///
/// # Errors
/// `Unopened` where the command changes a group and a disk can't be opened, `Locked` where it looks at a group and another program has a disk, and
/// want of memory.
pub fn open<R>(
    rt: &R,
    paths: &[String],
    command: &Command,
    founds: Option<NewLayout>,
) -> Result<Disks<R>, Failure>
where
    R: Files<File = File> + Clock + Eprint + AllocGlobal + Clone + Drop,
    requires { length paths.now ≤ 64 }
{
    let reached = reached_disks(rt, paths, command)?;
    let turned = turned_disks(rt.alloc(), reached, founds)?;
    by_logs(rt.alloc(), turned, command)
}

/// The disks as they are turned, on the heap.
#[inline(never)]
fn turned_disks<B: Bay + Drop>(
    alloc: Global,
    reached: B,
    founds: Option<NewLayout>,
) -> Result<Boxed<Turned<B>>, NoMemory> {
    Boxed::new(alloc, Turned::new(reached, founds))
}

/// The disks by what their bad block logs say. `examine` tells what is written on them, so it sees sectors and logs as they are.
// argued: that a command reads and writes bad sectors where the logs say, for what this function answers is the bay that it gets, and that `examine` alone
// sees the logs themselves.
#[inline(never)]
fn by_logs<B: Bay + Drop>(
    alloc: Global,
    inner: B,
    command: &Command,
) -> Result<Boxed<Honoured<B>>, Failure> {
    if let Command::Examine = command {
        return Ok(Boxed::new(alloc, Honoured::as_written(alloc, inner))?);
    }
    match Honoured::new(alloc, inner) {
        Ok(disks) => Ok(Boxed::new(alloc, disks)?),
        Err(_) => Err(Failure::Memory),
    }
}

/// How far the records of each disk reach.
pub fn ends_of<R: Files<File = File>>(disks: &Disks<R>) -> Ends {
    disks.inner().inner().inner().inner().inner().ends()
}

/// Says why the log of the disk in a slot isn't honoured, where the command was refused for it. Closes the disks, and names each of which a call
/// failed, and what the system said of the last one. All of it on standard error.
// argued: that the entry that is named is one of the slot's own log, for it is looked at below the bay that exchanges sectors and hides logs.
#[inline(never)]
pub fn name_failed_of<R>(rt: &R, disks: Disks<R>, paths: &[String], refused: Option<usize>)
where
    R: Files<File = File> + Clock + Eprint + AllocGlobal + Clone + Drop,
{
    let mut turned = disks.into_inner().into_inner();
    if let Some(slot) = refused {
        name_log(rt, &mut turned, paths, slot);
    }
    let shortened = turned.into_inner().into_inner().into_inner();
    name_failed(rt, &shortened.into_inner(), paths);
}
