//! A vendor's record: its GUID, and all else kept as it was found. docs/FORMAT.md#vendors-record
ghost use Rattle.std.specs.Prelude.{◌≡◌, ◌≤◌, length, IfOk};
ghost use Rattle.ddf_seal.specs.Records.{record_bytes};
ghost use Rattle.ddf_seal.specs.Unread.{AreBytes};
ghost use Rattle.ddf_config_records.specs.Vendors.{vendor_fields, vendor_rest, vendor_signature};

use crate::layout;
use crate::rest::rest_of;
use ddf_bytes::{Guid, NoMemory, Seq};
use ddf_seal::{place, seal};
use std::alloc::Global;

/// The bytes of a vendor's record that aren't its GUID or its seal.
#[tactic(auto, unfolding(crate::specs::Vendors::vendor_rest))]
pub(crate) fn read_vendor(alloc: Global, bytes: &[u8]) -> Result<Seq<u8>, NoMemory>
    requires { 512 ≤ length bytes.now }
    ensures { IfOk result (λ rest. rest ≡ vendor_rest bytes.now) }
{
    let rest = rest_of(alloc, bytes, &layout::VENDOR_HEAD)?;
    Ok(Seq::new(rest))
}

/// Writes a vendor's record.
pub(crate) fn write_vendor(into: &mut [u8], guid: &Guid, rest: &[u8])
    requires size { length rest.now ≡ length into.old }
    requires whole { 512 ≤ length into.old }
    ensures exact { into.new ≡ record_bytes vendor_signature (vendor_fields guid.now) rest.now }
    ensures bytes { AreBytes into.new }
{
    into.copy_from_slice(rest);
    place(into, layout::VENDOR_GUID_AT, &guid.bytes());
    seal(into, layout::VENDOR_SIGNATURE);
}
