//! The headers that a copy is written behind.
ghost use Rattle.std.specs.Prelude.{◌≡◌};
ghost use Rattle.ddf_header.specs.Header.{IsWritable};
ghost use Rattle.ddf_header.specs.declared.kind.HeaderKind.{HeaderKind};
ghost use Rattle.ddf_copy.specs.Headers.{anchor_header, closed_header, opened_header};
ghost use Rattle.ddf_copy.specs.Which.{kind_of};
ghost use Rattle.ddf_copy.specs.Written.{CanBeCopy};

use crate::copy::DiskCopy;
use crate::which::Which;
use ddf_header::{Header, HeaderKind};

/// The open flag of a header while its sections change.
const OPEN: u8 = 0x01;

/// The open flag and the sequence of an anchor, which have no meaning.
const ANCHOR_FLAG: u8 = 0xFF;

const ANCHOR_SEQUENCE: u32 = 0xFFFF_FFFF;

impl DiskCopy {
    /// The copy's header in its place, with its gate closed.
    pub fn closed_header(&self, which: Which) -> Header
        ensures value { result ≡ closed_header self.now which }
        ensures writable { CanBeCopy self.now → IsWritable (kind_of which) result }
    {
        Header {
            kind: which.kind(),
            openness: 0,
            ..self.header
        }
    }

    /// The copy's header in its place, with its gate open.
    pub fn opened_header(&self, which: Which) -> Header
        ensures value { result ≡ opened_header self.now which }
        ensures writable { CanBeCopy self.now → IsWritable (kind_of which) result }
    {
        Header {
            kind: which.kind(),
            openness: OPEN,
            ..self.header
        }
    }

    /// The anchor of a disk with this copy.
    pub fn anchor_header(&self) -> Header
        ensures value { result ≡ anchor_header self.now }
        ensures writable { CanBeCopy self.now → IsWritable HeaderKind.Anchor result }
    {
        Header {
            kind: HeaderKind::Anchor,
            openness: ANCHOR_FLAG,
            sequence: ANCHOR_SEQUENCE,
            ..self.header
        }
    }
}
