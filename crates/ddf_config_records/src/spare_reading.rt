//! The record of a spare, read. docs/FORMAT.md#spare-record
ghost use Rattle.std.specs.Prelude.{◌≡◌, ◌+◌, ◌*◌, ◌≤◌, length, IfOk};
ghost use Rattle.ddf_config_records.specs.declared.layout.TheConstants.{SPARE_ENTRIES_AT, SPARE_ENTRY_BYTES};
ghost use Rattle.ddf_config_records.specs.Spares.{arrays_at, spare_at, spare_count, spare_rest};

use crate::layout;
use crate::rest::{clear_more, rest_of};
use crate::spare::SpareRecord;
use ddf_bytes::{Guid, NoMemory, Seq, be16, be32};
use ddf_seal::{Span, guid_at};
use std::alloc::Global;

/// The spare record of a sealed record.
pub(crate) fn read_spare(alloc: Global, bytes: &[u8]) -> Result<SpareRecord, NoMemory>
    requires { 512 ≤ length bytes.now }
    ensures { IfOk result (λ spare. spare ≡ spare_at bytes.now) }
{
    let count = entry_count(bytes);
    let arrays = arrays(alloc, bytes, count)?;
    let rest = unread(alloc, bytes, count)?;
    Ok(SpareRecord {
        timestamp: be32(bytes, layout::SPARE_TIMESTAMP_AT),
        kind: bytes[layout::SPARE_KIND_AT],
        arrays: Seq::new(arrays),
        rest: Seq::new(rest),
    })
}

/// How many entries are read: those that are populated, and at most those that fit (profile).
fn entry_count(bytes: &[u8]) -> usize
    requires { 512 ≤ length bytes.now }
    ensures count { result ≡ spare_count bytes.now }
    ensures within { SPARE_ENTRIES_AT + SPARE_ENTRY_BYTES * result ≤ length bytes.now }
{
    let populated = usize::from(be16(bytes, layout::SPARE_POPULATED_AT));
    populated.min((bytes.len() - layout::SPARE_ENTRIES_AT) / layout::SPARE_ENTRY_BYTES)
}

fn arrays(alloc: Global, bytes: &[u8], count: usize) -> Result<Vec<Guid>, NoMemory>
    requires { SPARE_ENTRIES_AT + SPARE_ENTRY_BYTES * count ≤ length bytes.now }
    ensures { IfOk result (λ arrays. arrays.items ≡ arrays_at bytes.now count) }
{
    let mut arrays = Vec::with_capacity(alloc, count)?;
    for index in 0..count {
        arrays.push(guid_at(
            bytes,
            layout::SPARE_ENTRIES_AT + layout::SPARE_ENTRY_BYTES * index,
        ))?;
    }
    Ok(arrays)
}

/// The bytes of the record that no field names.
fn unread(alloc: Global, bytes: &[u8], count: usize) -> Result<Vec<u8>, NoMemory>
    requires long { 512 ≤ length bytes.now }
    requires whole { SPARE_ENTRIES_AT + SPARE_ENTRY_BYTES * count ≤ length bytes.now }
    requires counted { count ≡ spare_count bytes.now }
    ensures { IfOk result (λ rest. rest.items ≡ spare_rest bytes.now) }
{
    let mut rest = rest_of(alloc, bytes, &layout::SPARE_HEAD)?;
    for index in 0..count {
        clear_more(
            &mut rest,
            &[Span {
                at: layout::SPARE_ENTRIES_AT + layout::SPARE_ENTRY_BYTES * index,
                length: 24,
            }],
        );
    }
    Ok(rest)
}
