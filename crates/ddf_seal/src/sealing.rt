//! The seal: signature and CRC, checked and written, of every record alike. docs/FORMAT.md#the-seal
ghost use Rattle.std.specs.Prelude.{◌≡◌, ◌≤◌, ◌↔◌, length, drop, IsOk};
ghost use Rattle.ddf_seal.specs.Seal.{IsSealed, sealed, seal_check, record_crc};

use crate::crc::after_bytes;
use crate::unread::Span;
use ddf_bytes::{be32, put32};
use thiserror::Error;

/// Offset of the signature in each record: four bytes.
pub const SIGNATURE_AT: usize = 0;

/// Offset of the CRC in each record: four bytes.
pub const CRC_AT: usize = 4;

/// The place of the seal in each record: four bytes of signature, and four of CRC.
pub const SEAL: Span = Span {
    at: SIGNATURE_AT,
    length: 8,
};

/// Why bytes don't have the seal that was asked for.
#[derive(Clone, Copy, Debug, PartialEq, Eq, Error)]
pub enum SealFault {
    /// Another signature was found.
    #[error("the signature is {0:08x}")]
    Signature(u32),
    /// The signature is right, and the CRC isn't that of the bytes.
    #[error("the stored CRC is {stored:08x}, that of the bytes is {counted:08x}")]
    Crc {
        /// The CRC in bytes 4 to 7.
        stored: u32,
        /// The CRC of the bytes.
        counted: u32,
    },
}

/// Seals a record: writes the signature and the CRC, and nothing else (SNIA DDF 2.0).
pub fn seal(bytes: &mut [u8], signature: u32)
    requires { 8 ≤ length bytes.old }
    // promise:sums
    ensures exact { bytes.new ≡ sealed signature bytes.old }
    ensures sealed { IsSealed signature bytes.new }
    ensures kept { drop 8 bytes.new ≡ drop 8 bytes.old }
{
    put32(bytes, SIGNATURE_AT, signature);
    let crc = crc_of_record(bytes);
    put32(bytes, CRC_AT, crc);
}

/// Whether a record is sealed with this signature. The signature is looked at first.
pub fn check(bytes: &[u8], signature: u32) -> Result<(), SealFault>
    requires { 8 ≤ length bytes.now }
    ensures exact { result ≡ seal_check signature bytes.now }
    ensures sealed { IsOk result ↔ IsSealed signature bytes.now }
{
    let found = be32(bytes, SIGNATURE_AT);
    if found != signature {
        return Err(SealFault::Signature(found));
    }
    let stored = be32(bytes, CRC_AT);
    let counted = crc_of_record(bytes);
    if stored != counted {
        return Err(SealFault::Crc { stored, counted });
    }
    Ok(())
}

/// The CRC of a record, with its own four bytes taken as FF.
fn crc_of_record(bytes: &[u8]) -> u32
    requires { 8 ≤ length bytes.now }
    ensures { result ≡ record_crc bytes.now }
{
    let signature = after_bytes(u32::MAX, &bytes[..CRC_AT]);
    let own = after_bytes(signature, &[0xFF; 4]);
    after_bytes(own, &bytes[CRC_AT + 4..]) ^ u32::MAX
}
