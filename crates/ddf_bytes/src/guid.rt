//! GUIDs: their 24 bytes, their 48 digits, and how new ones are made: of a kind, the time, a number and chance, so that two of them hardly
//! ever are the same.
ghost use Rattle.std.specs.Prelude.{◌≡◌, ◌↔◌, ℕ, List, length, Some, IsSome, IfSome, IsTrue};
ghost use Rattle.std.specs.List.{AllPass};
ghost use Rattle.std.specs.Str.{IsAscii};
ghost use Rattle.hex.specs.Hex.{encode_lower};
ghost use Rattle.ddf_bytes.specs.Guids.{is_lower_digit, IsGuid, new_guid_bytes};

use crate::Stamp;
use crate::hex_text::{ascii_text, put_digits};
use std::fmt;
use std::marker::Model;

/// The name of a group, controller, disk or array: 24 bytes. Contracts see it as the list of its bytes.
#[derive(Clone, Copy, PartialEq, Eq, PartialOrd, Ord, Hash)]
pub struct Guid {
    bytes: [u8; 24],
}

impl Model for Guid {
    ghost use Rattle.std.specs.Prelude.{ℕ, List};

    ghost Value = { List ℕ };

    ghost view = { λ guid. guid.bytes };

    ghost inverse = { λ bytes. record { bytes = bytes } };
}

/// What a new GUID names.
#[derive(Clone, Copy, PartialEq, Eq)]
pub enum GuidKind {
    /// A group of disks.
    Group,
    /// A controller.
    Controller,
    /// A disk.
    Disk,
    /// An array.
    Array,
}

impl Guid {
    /// The GUID of these bytes.
    pub fn new(bytes: [u8; 24]) -> Guid
        ensures { result ≡ bytes }
    {
        Guid { bytes }
    }

    /// The bytes of the GUID.
    pub fn bytes(&self) -> [u8; 24]
        ensures { result ≡ self.now }
    {
        self.bytes
    }

    /// Writes the GUID as 48 lower-case hexadecimal digits.
    pub fn print(&self, into: &mut [u8; 48])
        ensures digits { into.new ≡ encode_lower self.now }
        ensures ascii { IsAscii into.new }
    {
        put_digits(&self.bytes, into);
    }

    /// Reads a GUID of 48 digits `0` to `9` and `a` to `f`. Anything else is none.
    pub fn parse(text: &[u8]) -> Option<Guid>
        ensures digits { IsSome result ↔ ((length text.now ≡ 48) × AllPass is_lower_digit text.now) }
        ensures value { IfSome result (λ guid. encode_lower guid ≡ text.now) }

        // What was printed is read again.
        ensures printed { (bytes : List ℕ) → IsGuid bytes → text.now ≡ encode_lower bytes → result ≡ Some bytes }
    {
        if !are_digits(text) {
            return None;
        }
        let mut bytes = [0; 24];
        match hex::decode_to_slice(text, &mut bytes) {
            Ok(()) => Some(Guid { bytes }),
            Err(_) => None,
        }
    }
}

fn are_digits(text: &[u8]) -> bool
    ensures { IsTrue result ↔ AllPass is_lower_digit text.now }
{
    text.iter()
        .all(|byte| matches!(byte, b'0'..=b'9' | b'a'..=b'f'))
}

/// As 48 lower-case hexadecimal digits.
impl fmt::Display for Guid {
    ghost output = { λ guid. Some (encode_lower guid) };

    fn fmt<W: fmt::Write>(&self, f: &mut fmt::Formatter<W>) -> fmt::Result {
        let mut digits = [0; 48];
        self.print(&mut digits);
        f.write_str(ascii_text(&digits))
    }
}

/// A new GUID: the kind in eight letters, the timestamp, a number and the low half of the salt (profile).
pub fn new_guid(kind: GuidKind, stamp: &Stamp, number: u32) -> Guid
    ensures { result ≡ new_guid_bytes kind stamp.now number }
{
    let prefix = match kind {
        GuidKind::Group => b"RDDF-G  ",
        GuidKind::Controller => b"RDDF-C  ",
        GuidKind::Disk => b"RDDF-D  ",
        GuidKind::Array => b"RDDF-A  ",
    };
    let salt = (stamp.salt % (1 << 64)) as u64;
    let mut bytes = [0; 24];
    bytes[..8].copy_from_slice(prefix);
    bytes[8..12].copy_from_slice(&stamp.timestamp().to_be_bytes());
    bytes[12..16].copy_from_slice(&number.to_be_bytes());
    bytes[16..].copy_from_slice(&salt.to_be_bytes());
    Guid { bytes }
}
