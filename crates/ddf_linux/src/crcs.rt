//! Records in the two kinds of seal, the standard's and that of Linux's mdadm, which differ by a constant of their length.
//! docs/LINUX-SEALS.md#one-constant
ghost use Rattle.std.specs.Prelude.{◌≡◌, ◌↔◌, ◌≤◌, ℕ, length};
ghost use Rattle.ddf_seal.specs.Seal.{IsSealed};
ghost use Rattle.ddf_linux.specs.Crcs.{constant_of, linux_crc_of, IsLinuxSealed};
ghost use Rattle.ddf_linux.specs.Turning.{turned};

use crate::zeros::constant_of;
use ddf_seal::{CRC_AT, crc32};

/// The CRC of the bytes as Linux's mdadm counts it: the polynomial is the standard's, the register begins with 0, and no
/// bits are turned in the end.
pub fn linux_crc32(bytes: &[u8]) -> u32
    ensures { result ≡ linux_crc_of bytes.now }
{
    crc32(bytes) ^ constant_of(bytes.len() as u64)
}

/// Turns the seal of a whole record, in bytes 4 to 7, from one kind into the other. A wrong CRC stays wrong.
pub fn turn_record(bytes: &mut [u8])
    requires { 8 ≤ length bytes.old }
    ensures exact { bytes.new ≡ turned (constant_of (length bytes.old)) bytes.old }

    // What Linux sealed is then sealed as the standard says, and nothing else is.
    ensures from_linux { (signature : ℕ) → IsLinuxSealed signature bytes.old ↔ IsSealed signature bytes.new }

    // And the other way round.
    ensures from_standard { (signature : ℕ) → IsSealed signature bytes.old ↔ IsLinuxSealed signature bytes.new }
{
    add(constant_of(bytes.len() as u64), bytes);
}

/// Adds a constant to the CRC, without carries.
pub(crate) fn add(constant: u32, bytes: &mut [u8])
    requires { 8 ≤ length bytes.old }
    ensures { bytes.new ≡ turned constant bytes.old }
{
    let [first, second, third, fourth] = constant.to_be_bytes();
    bytes[CRC_AT] ^= first;
    bytes[CRC_AT + 1] ^= second;
    bytes[CRC_AT + 2] ^= third;
    bytes[CRC_AT + 3] ^= fourth;
}
