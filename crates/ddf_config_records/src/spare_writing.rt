//! The record of a spare, written. docs/FORMAT.md#spare-record
ghost use Rattle.std.specs.Prelude.{◌≡◌, ◌+◌, ◌*◌, ◌≤◌, length};
ghost use Rattle.ddf_seal.specs.Records.{record_bytes};
ghost use Rattle.ddf_seal.specs.Unread.{AreBytes, written};
ghost use Rattle.ddf_config_records.specs.declared.layout.TheConstants.{SPARE_ENTRIES_AT, SPARE_ENTRY_BYTES};
ghost use Rattle.ddf_config_records.specs.Spares.{entry_fields, spare_fields, spare_signature};

use crate::layout;
use crate::spare::SpareRecord;
use ddf_bytes::{Guid, put32};
use ddf_seal::{place, seal};

/// Writes a spare record.
pub(crate) fn write_spare(into: &mut [u8], spare: &SpareRecord)
    requires size { length spare.now.rest ≡ length into.old }
    requires whole { SPARE_ENTRIES_AT + SPARE_ENTRY_BYTES * length spare.now.arrays ≤ length into.old }
    ensures exact { into.new ≡ record_bytes spare_signature (spare_fields spare.now) spare.now.rest }
    ensures bytes { AreBytes into.new }
{
    into.copy_from_slice(spare.rest.items());
    put32(into, layout::SPARE_TIMESTAMP_AT, spare.timestamp);
    place(into, layout::SPARE_KIND_AT, &[spare.kind]);
    put_arrays(into, spare.arrays.items());
    seal(into, layout::SPARE_SIGNATURE);
}

pub(crate) fn put_arrays(into: &mut [u8], arrays: &[Guid])
    requires { SPARE_ENTRIES_AT + SPARE_ENTRY_BYTES * length arrays.now ≤ length into.old }
    ensures { into.new ≡ written (entry_fields SPARE_ENTRIES_AT arrays.now) into.old }
{
    for (index, array) in arrays.iter().enumerate() {
        place(
            into,
            layout::SPARE_ENTRIES_AT + layout::SPARE_ENTRY_BYTES * index,
            &array.bytes(),
        );
    }
}
