//! The update of one disk, with every sector made before the first is written: memory that runs out half way through would end a change
//! between two disks. docs/UPDATES.md
ghost use Rattle.std.specs.Prelude.{◌≡◌, IfOk};
ghost use Rattle.ddf_copy.specs.Written.{CanBeCopy};
ghost use Rattle.ddf_update.specs.Prepared.{IsGateOf, IsPrepared, written_first};

use crate::gate::Gate;
use ddf_bytes::{NoMemory, Sector, Seq};
use ddf_copy::{DiskCopy, Run, Which, runs_of};
use ddf_header::encode;
use std::alloc::Global;

/// How the copies of a disk are written.
#[derive(Clone, Copy, PartialEq, Eq)]
pub enum Mode {
    /// Those of a disk that shows a copy: the one that isn't the newest, and then the other.
    Change,
    /// Those of a disk without an anchor: both, and then the anchor.
    Found,
    /// Those of a disk that shows another group: the one that isn't the newest, then the anchor, and then the other.
    Adopt,
    /// Those of a disk that shows another group, at other places than its copies: both, and then the anchor.
    Move,
}

/// Every sector of one disk's update, and where it is written.
#[derive(Drop)]
pub struct Prepared {
    /// How the copies are written.
    pub mode: Mode,
    /// The copy that is written first.
    pub first: Gate,
    /// The copy that is written behind it.
    pub second: Gate,
    /// The sections of both.
    pub runs: Seq<Run>,
    /// The anchor, which a change doesn't write.
    pub anchor: Sector,
}

/// Prepares an update to a copy, which is one that can stand on a disk. `last` is the copy that is written second; a founding and a
/// move begin with the primary one.
pub fn prepare(
    alloc: Global,
    copy: &DiskCopy,
    last: Which,
    mode: Mode,
) -> Result<Prepared, NoMemory>
    requires { CanBeCopy copy.now }
    ensures { IfOk result (IsPrepared copy.now last mode) }
{
    let first = written_first(mode, last);
    let runs = runs_of(alloc, copy)?;
    Ok(Prepared {
        mode,
        first: gate_of(copy, first),
        second: gate_of(copy, first.other()),
        runs,
        anchor: encode(&copy.anchor_header()),
    })
}

fn written_first(mode: Mode, last: Which) -> Which
    ensures { result ≡ written_first mode last }
{
    match mode {
        Mode::Change | Mode::Adopt => last.other(),
        Mode::Found | Mode::Move => Which::Primary,
    }
}

fn gate_of(copy: &DiskCopy, which: Which) -> Gate
    requires { CanBeCopy copy.now }
    ensures { IsGateOf copy.now which result }
{
    Gate {
        lba: which.place(&copy.header),
        opened: encode(&copy.opened_header(which)),
        closed: encode(&copy.closed_header(which)),
    }
}
