//! Reads of one block of an array.
ghost use Rattle.std.specs.Prelude.{◌≡◌, ◌≢◌, ◌<◌, [], length, ℕ, OnOk, IfErr};
ghost use Rattle.std.specs.List.{flat_map, range_with_len};
ghost use Rattle.ddf_array.specs.Sources.{sources, at_element};
ghost use Rattle.ddf_array.specs.Volume.{Fits, HasBlock, capacity};
ghost use Rattle.ddf_read.specs.Kinds.{sources_in, sources_of};
ghost use Rattle.ddf_read.specs.Reading.{OnlyReads, Failed, Tried, IsGivenBy, NoneLeft};

use crate::element::read_in;
use crate::kind::Kind;
use ddf_array::View;
use ddf_bay::Bay;
use ddf_bytes::Sector;

/// Reads a block of an element from its sources of a kind.
fn read_at<B: Bay>(
    bay: &mut B,
    view: &View,
    kind: Kind,
    element: usize,
    block: u64,
    into: &mut Sector,
) -> Result<(), Option<usize>>
    requires fits { Fits (B.disks bay.old).sizes view.now }
    requires block { HasBlock view.now element block }
    ensures tried { Tried B.tells (Failed (B.disks bay.old) (B.disks bay.new)) (B.disks bay.old).held
        (at_element view.now.parts (sources_in kind) block element) result into.new }
    ensures reads { OnlyReads (B.disks bay.old) (B.disks bay.new) }
{
    match view.part(element) {
        Some(part) => read_in(bay, part, kind, block, into),
        None => Err(None),
    }
}

/// The same of a block that every element holds.
fn read_at_each<B: Bay>(
    bay: &mut B,
    view: &View,
    kind: Kind,
    block: u64,
    into: &mut Sector,
) -> Result<(), Option<usize>>
    requires fits { Fits (B.disks bay.old).sizes view.now }
    requires block { (element : ℕ) → HasBlock view.now element block }
    ensures tried { Tried B.tells (Failed (B.disks bay.old) (B.disks bay.new)) (B.disks bay.old).held
        (flat_map (at_element view.now.parts (sources_in kind) block) (range_with_len 0 (length view.now.parts))) result into.new }
    ensures reads { OnlyReads (B.disks bay.old) (B.disks bay.new) }
{
    let mut failed = None;
    for element in 0..view.parts().len() {
        match read_at(bay, view, kind, element, block, into) {
            Ok(()) => return Ok(()),
            Err(next) => failed = failed.or(next),
        }
    }
    Err(failed)
}

/// Reads a block from its sources of a kind, in order.
fn read_by<B: Bay>(
    bay: &mut B,
    view: &View,
    kind: Kind,
    block: u64,
    into: &mut Sector,
) -> Result<(), Option<usize>>
    requires fits { Fits (B.disks bay.old).sizes view.now }
    requires block { block < capacity view.now }
    ensures tried { Tried B.tells (Failed (B.disks bay.old) (B.disks bay.new)) (B.disks bay.old).held (sources_of kind view.now block) result into.new }
    ensures reads { OnlyReads (B.disks bay.old) (B.disks bay.new) }
{
    let spot = view.spot(block);
    if view.is_in_every() {
        return read_at_each(bay, view, kind, spot.block, into);
    }
    read_at(bay, view, kind, usize::from(spot.element), spot.block, into)
}

/// Reads a block from its sources, in order: its copies, and then its rows where parity may be trusted. After a failure,
/// a slot of the first source of which a read failed, if there are sources.
fn try_block<B: Bay>(
    bay: &mut B,
    view: &View,
    block: u64,
    into: &mut Sector,
) -> Result<(), Option<usize>>
    requires fits { Fits (B.disks bay.old).sizes view.now }
    requires block { block < capacity view.now }
    ensures tried { Tried B.tells (Failed (B.disks bay.old) (B.disks bay.new)) (B.disks bay.old).held (sources view.now block) result into.new }
    ensures reads { OnlyReads (B.disks bay.old) (B.disks bay.new) }
{
    let failed = match read_by(bay, view, Kind::Copies, block, into) {
        Ok(()) => return Ok(()),
        Err(failed) => failed,
    };
    if !view.trusts_parity() {
        return Err(failed);
    }
    match read_by(bay, view, Kind::Rows, block, into) {
        Ok(()) => Ok(()),
        Err(next) => Err(failed.or(next)),
    }
}

/// Reads a block that has a source. After a failure, the slot at which no source is left.
pub(crate) fn read_block<B: Bay>(
    bay: &mut B,
    view: &View,
    block: u64,
    into: &mut Sector,
) -> Result<(), usize>
    requires fits { Fits (B.disks bay.old).sizes view.now }
    requires block { block < capacity view.now }
    requires source { sources view.now block ≢ [] }
    ensures given { B.tells → OnOk result (IsGivenBy (Failed (B.disks bay.old) (B.disks bay.new)) (B.disks bay.old).held (sources view.now block) into.new) }
    ensures left { IfErr result (NoneLeft (Failed (B.disks bay.old) (B.disks bay.new)) (sources view.now block)) }
    ensures reads { OnlyReads (B.disks bay.old) (B.disks bay.new) }
{
    match try_block(bay, view, block, into) {
        Ok(()) => Ok(()),
        Err(failed) => Err(failed.unwrap()),
    }
}
