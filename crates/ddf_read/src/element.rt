//! Reads of one block of an element.
ghost use Rattle.std.specs.Prelude.{◌≡◌, ◌<◌, ◌++◌, map, length, option_to_list};
ghost use Rattle.std.specs.List.{flat_map, range_with_len};
ghost use Rattle.ddf_primary.specs.Cells.{cells};
ghost use Rattle.ddf_array.specs.Places.{site_at};
ghost use Rattle.ddf_array.specs.Sources.{copy, row, element_copies, element_rows};
ghost use Rattle.ddf_array.specs.Volume.{IsPart, PartFits};
ghost use Rattle.ddf_read.specs.Kinds.{sources_in};
ghost use Rattle.ddf_read.specs.Reading.{OnlyReads, Failed, Tried};

use crate::kind::Kind;
use crate::level::{is_on_every, keeps_parity};
use crate::parity::read_row;
use crate::reading::try_site;
use ddf_array::Part;
use ddf_bay::Bay;
use ddf_bytes::Sector;
use ddf_primary::Cell;

/// Reads a sector of the first position that can be read.
fn read_any<B: Bay>(
    bay: &mut B,
    part: &Part,
    sector: u64,
    into: &mut Sector,
) -> Result<(), Option<usize>>
    requires part { IsPart part.now }
    requires fits { PartFits (B.disks bay.old).sizes part.now }
    requires sector { sector < part.now.shape.blocks }
    ensures tried { Tried B.tells (Failed (B.disks bay.old) (B.disks bay.new)) (B.disks bay.old).held
        (flat_map (λ position. map copy (option_to_list (site_at part.now.places position sector))) (range_with_len 0 (length part.now.places))) result into.new }
    ensures reads { OnlyReads (B.disks bay.old) (B.disks bay.new) }
{
    let mut failed = None;
    for position in 0..part.places.items().len() {
        let site = part.site_at(position, sector);
        match try_site(bay, site, into) {
            Ok(()) => return Ok(()),
            Err(next) => failed = failed.or(next),
        }
    }
    Err(failed)
}

/// Reads the first of two cells that can be read.
fn read_either<B: Bay>(
    bay: &mut B,
    part: &Part,
    low: Cell,
    high: Cell,
    into: &mut Sector,
) -> Result<(), Option<usize>>
    requires part { IsPart part.now }
    requires fits { PartFits (B.disks bay.old).sizes part.now }
    requires low { low.sector < part.now.shape.blocks }
    requires high { high.sector < part.now.shape.blocks }
    ensures tried { Tried B.tells (Failed (B.disks bay.old) (B.disks bay.new)) (B.disks bay.old).held
        (map copy (option_to_list (site_at part.now.places low.member low.sector)) ++ map copy (option_to_list (site_at part.now.places high.member high.sector))) result into.new }
    ensures reads { OnlyReads (B.disks bay.old) (B.disks bay.new) }
{
    let first = part.site_at(usize::from(low.member), low.sector);
    let failed = match try_site(bay, first, into) {
        Ok(()) => return Ok(()),
        Err(failed) => failed,
    };
    let second = part.site_at(usize::from(high.member), high.sector);
    match try_site(bay, second, into) {
        Ok(()) => Ok(()),
        Err(next) => Err(failed.or(next)),
    }
}

/// Reads a block from its first position that can be read.
fn read_copies<B: Bay>(
    bay: &mut B,
    part: &Part,
    block: u64,
    into: &mut Sector,
) -> Result<(), Option<usize>>
    requires part { IsPart part.now }
    requires fits { PartFits (B.disks bay.old).sizes part.now }
    requires block { block < length (cells part.now.shape) }
    ensures tried { Tried B.tells (Failed (B.disks bay.old) (B.disks bay.new)) (B.disks bay.old).held (map copy (element_copies part.now block)) result into.new }
    ensures reads { OnlyReads (B.disks bay.old) (B.disks bay.new) }
{
    let cell = part.shape.place(block);
    if is_on_every(part.shape.layout()) {
        return read_any(bay, part, cell.sector, into);
    }
    match part.shape.twins(block) {
        Some(twins) => read_either(bay, part, twins.low, twins.high, into),
        None => {
            let site = part.site_at(usize::from(cell.member), cell.sector);
            try_site(bay, site, into)
        }
    }
}

/// Reads a block by the other cells of its row, where the element keeps parity and all of these are available.
fn read_rows<B: Bay>(
    bay: &mut B,
    part: &Part,
    block: u64,
    into: &mut Sector,
) -> Result<(), Option<usize>>
    requires part { IsPart part.now }
    requires fits { PartFits (B.disks bay.old).sizes part.now }
    requires block { block < length (cells part.now.shape) }
    ensures tried { Tried B.tells (Failed (B.disks bay.old) (B.disks bay.new)) (B.disks bay.old).held (map row (element_rows part.now block)) result into.new }
    ensures reads { OnlyReads (B.disks bay.old) (B.disks bay.new) }
{
    if !keeps_parity(part.shape.layout()) {
        return Err(None);
    }
    let cell = part.shape.place(block);
    read_row(bay, part, usize::from(cell.member), cell.sector, into)
}

/// Reads a block from its sources of a kind, in order. After a failure, a slot of the first of them of which a read
/// failed, if there are any.
pub(crate) fn read_in<B: Bay>(
    bay: &mut B,
    part: &Part,
    kind: Kind,
    block: u64,
    into: &mut Sector,
) -> Result<(), Option<usize>>
    requires part { IsPart part.now }
    requires fits { PartFits (B.disks bay.old).sizes part.now }
    requires block { block < length (cells part.now.shape) }
    ensures tried { Tried B.tells (Failed (B.disks bay.old) (B.disks bay.new)) (B.disks bay.old).held (sources_in kind part.now block) result into.new }
    ensures reads { OnlyReads (B.disks bay.old) (B.disks bay.new) }
{
    match kind {
        Kind::Copies => read_copies(bay, part, block, into),
        Kind::Rows => read_rows(bay, part, block, into),
    }
}
