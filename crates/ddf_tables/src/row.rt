//! What disks and arrays share as rows of a table, so that the table itself is written once.
ghost use Rattle.std.specs.Prelude.{◌≡◌, length, IfOk};
ghost use Rattle.ddf_tables.specs.Rows.{is_unused};
ghost use Rattle.ddf_tables.specs.Tables.{first_twice};

use crate::fault::TableFault;
use ddf_bytes::{Guid, NoMemory};
use std::alloc::Global;

/// A row of a table, of 64 bytes.
pub(crate) trait Row: Copy {
    ghost use Rattle.std.specs.Prelude.{ℕ, Bool, List, Option};
    ghost use Rattle.ddf_tables.specs.declared.fault.TableFault.{TableFault};

    /// The signature of the table that it stands in.
    const SIGNATURE: u32;

    ghost SIGNATURE: { ℕ };

    ghost row_at: { List ℕ → Self };

    ghost row_bytes: { Self → List ℕ };

    ghost is_used_row: { Self → Bool };

    ghost twice_after: { List Self → Self → Option TableFault };

    /// The row that stands in 64 bytes.
    fn read(bytes: &[u8]) -> Self
        requires { length bytes.now ≡ 64 }
        ensures { result ≡ row_at bytes.now };

    /// The bytes that it is written as.
    fn bytes(&self) -> [u8; 64]
        ensures { result ≡ row_bytes self.now };

    /// Whether it names a disk or an array.
    fn is_used(&self) -> bool
        ensures { result ≡ is_used_row self.now };

    /// What is wrong with the first row with which something is wrong, by the rows before it.
    fn first_twice(alloc: Global, rows: &[Self]) -> Result<Option<TableFault>, NoMemory>
        ensures { IfOk result (λ fault. fault ≡ first_twice twice_after rows.now) };
}

/// Whether a row of this GUID is unused: all its bytes are FF.
pub(crate) fn is_unused(guid: &Guid) -> bool
    ensures { result ≡ is_unused guid.now }
{
    guid.bytes().iter().all(|byte| *byte == 0xFF)
}
