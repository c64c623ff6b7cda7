//! Where a rebuild notes how far it has come: at 63 rows at most, since each note is a change of the group that is made before the first row is filled.
//! docs/DECISIONS-COMMANDS.md#blocks-rebuilt
ghost use Rattle.std.specs.Prelude.{◌≡◌, ◌≤◌, ◌^◌, IfOk};
ghost use Rattle.ddf_rebuild_command.specs.Notes.{notes, rows_between};

use ddf_bytes::NoMemory;
use std::alloc::Global;

/// How many rows lie between two notes: 1,024, or so many times as many that there are at most 63 notes.
fn rows_between(rows: u64) -> u64
    requires { rows ≤ 2 ^ 48 }
    ensures { result ≡ rows_between rows }
{
    1024 * rows.div_ceil(65536)
}

/// The rows at which a rebuild notes how far it has come, rising: multiples that lie above the rows that are kept, and below all.
pub(crate) fn notes(alloc: Global, kept: u64, rows: u64) -> Result<Vec<u64>, NoMemory>
    requires { rows ≤ 2 ^ 48 }
    ensures { IfOk result (λ found. found.items ≡ notes kept rows) }
{
    let between = rows_between(rows);
    let mut found = Vec::new(alloc);
    for number in 1..64 {
        let row = number * between;
        if kept < row && row < rows {
            found.push(row)?;
        }
    }
    Ok(found)
}
