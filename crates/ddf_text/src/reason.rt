//! Why a header or a copy isn't what it is to be, as it prints.
ghost use Rattle.std.specs.Prelude.{◌≡◌};
ghost use Rattle.ddf_text.specs.Reasons.{section_word};

use ddf_bytes::{Hex8, Hex32};
use ddf_copy::{CopyFault, SectionName};
use ddf_header::HeaderFault;
use ddf_seal::SealFault;
use ddf_tables::TableFault;
use std::fmt;

/// Why a sector is no header of its kind.
#[derive(Drop)]
pub(crate) struct Reason<'a>(pub &'a HeaderFault);

/// Why a copy isn't whole.
#[derive(Drop)]
pub(crate) struct CopyReason<'a>(pub &'a CopyFault);

/// Why bytes aren't sealed.
#[derive(Drop)]
struct SealReason<'a>(&'a SealFault);

/// Why a section isn't what it is to be.
#[derive(Drop)]
struct SectionReason<'a>(&'a TableFault);

impl fmt::Display for Reason<'_> {
    ghost use Rattle.std.specs.Prelude.{Some};
    ghost use Rattle.ddf_text.specs.Reasons.{reason_text};

    ghost output = { λ reason. Some (reason_text reason.0.now) };

    fn fmt<W: fmt::Write>(&self, f: &mut fmt::Formatter<W>) -> fmt::Result {
        match self.0 {
            HeaderFault::Seal(fault) => write!(f, "{}", SealReason(fault)),
            HeaderFault::Revision => write!(f, "revision"),
            HeaderFault::OpenFlag(flag) => write!(f, "openflag {}", Hex8(*flag)),
            HeaderFault::Place => write!(f, "place"),
            HeaderFault::Kind(kind) => write!(f, "kind {}", Hex8(*kind)),
            HeaderFault::Geometry(offset) => write!(f, "geometry {offset}"),
        }
    }
}

impl fmt::Display for CopyReason<'_> {
    ghost use Rattle.std.specs.Prelude.{Some};
    ghost use Rattle.ddf_text.specs.Reasons.{copy_reason};

    ghost output = { λ reason. Some (copy_reason reason.0.now) };

    fn fmt<W: fmt::Write>(&self, f: &mut fmt::Formatter<W>) -> fmt::Result {
        match self.0 {
            CopyFault::Header(fault) => write!(f, "header {}", Reason(fault)),
            CopyFault::Opened(_) => write!(f, "open"),
            CopyFault::Anchor(offset) => write!(f, "anchor {offset}"),
            CopyFault::Room(offset) => write!(f, "room {offset}"),
            CopyFault::Section(name, fault) => {
                let section = section_word(*name);
                write!(f, "{section} {}", SectionReason(fault))
            }
            CopyFault::Slot(slot, fault) => write!(f, "record {slot} {}", SealReason(fault)),
            CopyFault::Disk(_) => write!(f, "fault"),
            CopyFault::Memory => write!(f, "memory"),
        }
    }
}

impl fmt::Display for SealReason<'_> {
    ghost use Rattle.std.specs.Prelude.{Some};
    ghost use Rattle.ddf_text.specs.Reasons.{seal_reason};

    ghost output = { λ reason. Some (seal_reason reason.0.now) };

    fn fmt<W: fmt::Write>(&self, f: &mut fmt::Formatter<W>) -> fmt::Result {
        match *self.0 {
            SealFault::Signature(found) => write!(f, "signature {}", Hex32(found)),
            SealFault::Crc { stored, counted } => {
                write!(f, "crc {} {}", Hex32(stored), Hex32(counted))
            }
        }
    }
}

impl fmt::Display for SectionReason<'_> {
    ghost use Rattle.std.specs.Prelude.{Some};
    ghost use Rattle.ddf_text.specs.Reasons.{section_reason};

    ghost output = { λ reason. Some (section_reason reason.0.now) };

    fn fmt<W: fmt::Write>(&self, f: &mut fmt::Formatter<W>) -> fmt::Result {
        match self.0 {
            TableFault::Seal(fault) => write!(f, "{}", SealReason(fault)),
            TableFault::Count { stated, found } => write!(f, "count {stated} {found}"),
            TableFault::TwiceSameReference(_) | TableFault::TwiceSameGuid(_) => write!(f, "twice"),
            TableFault::Memory => write!(f, "memory"),
        }
    }
}

/// The word of a section.
fn section_word(name: SectionName) -> &'static str
    ensures { result.now ≡ section_word name }
{
    match name {
        SectionName::Controller => "controller",
        SectionName::Disks => "disks",
        SectionName::Arrays => "arrays",
        SectionName::Records => "records",
        SectionName::DiskData => "diskdata",
        SectionName::BadBlocks => "badblocks",
    }
}
