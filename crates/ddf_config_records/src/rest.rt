//! The bytes of a record that no field names.
ghost use Rattle.std.specs.Prelude.{◌≡◌, length, IfOk, IsTrue};
ghost use Rattle.std.specs.List.{list_all};
ghost use Rattle.ddf_seal.specs.Unread.{cleared, is_within};

use ddf_bytes::NoMemory;
use ddf_seal::{Span, clear};
use std::alloc::Global;

/// The bytes with zeros in the places of fields.
pub(crate) fn rest_of(alloc: Global, bytes: &[u8], fields: &[Span]) -> Result<Vec<u8>, NoMemory>
    requires { IsTrue (list_all (is_within (length bytes.now)) fields.now) }
    ensures { IfOk result (λ rest. rest.items ≡ cleared fields.now bytes.now) }
{
    let mut rest = Vec::from_slice(alloc, bytes)?;
    clear_more(&mut rest, fields);
    Ok(rest)
}

/// Writes zeros in the places of fields.
pub(crate) fn clear_more(rest: &mut Vec<u8>, fields: &[Span])
    requires { IsTrue (list_all (is_within (length rest.old.items)) fields.now) }
    ensures { rest.new.items ≡ cleared fields.now rest.old.items }
{
    clear(rest, fields);
}
