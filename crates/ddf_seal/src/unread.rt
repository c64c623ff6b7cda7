//! Bytes that no field names: they are kept, and written back as they were found, since another controller may have its own use for them.
ghost use Rattle.std.specs.Prelude.{◌≡◌, ◌+◌, ◌≤◌, List, length, IsTrue};
ghost use Rattle.std.specs.List.{AllByRecursion, list_all};
ghost use Rattle.ddf_bytes.specs.Bytes.{bytes_at};
ghost use Rattle.ddf_seal.specs.Unread.{AreBytes, Field, Stands, cleared, cleared_one, is_within, placed, places, written};

use ddf_bytes::Guid;

/// The place of a field.
#[derive(Clone, Copy, PartialEq, Eq)]
pub struct Span {
    /// The offset within the record.
    pub at: usize,
    /// How many bytes the field takes.
    pub length: usize,
}

/// Writes zeros over the fields of a record, so that only its unread bytes are left: those that no field names. They are
/// kept as they are, and written back.
pub fn clear(bytes: &mut [u8], fields: &[Span])
    requires { IsTrue (list_all (is_within (length bytes.old)) fields.now) }
    ensures unread { bytes.new ≡ cleared fields.now bytes.old }

    // What stood in the places of the fields, written there again, makes the bytes as they were.
    ensures again { (values : List Field) → places values ≡ fields.now → AreBytes bytes.old
        → AllByRecursion (Stands bytes.old) values → written values bytes.new ≡ bytes.old }
{
    for field in fields {
        clear_one(bytes, *field);
    }
}

/// The GUID that stands at an offset.
pub fn guid_at(bytes: &[u8], at: usize) -> Guid
    requires { at + 24 ≤ length bytes.now }
    ensures { result ≡ bytes_at bytes.now at 24 }
{
    let mut guid = [0; 24];
    guid.copy_from_slice(&bytes[at..at + 24]);
    Guid::new(guid)
}

/// Writes bytes from an offset on. All other bytes stay.
#[tactic(auto, unfolding(crate::specs::Unread::placed))]
pub fn place(into: &mut [u8], at: usize, bytes: &[u8])
    requires { at + length bytes.now ≤ length into.old }
    ensures { into.new ≡ placed into.old at bytes.now }
{
    into[at..at + bytes.len()].copy_from_slice(bytes);
}

#[tactic(auto, unfolding(crate::specs::Unread::placed))]
fn clear_one(bytes: &mut [u8], field: Span)
    requires { field.at + field.length ≤ length bytes.old }
    ensures { bytes.new ≡ cleared_one bytes.old field }
{
    bytes[field.at..field.at + field.length].fill(0);
}
