//! Whether a reference is that of a current member: neither failed nor missing.
ghost use Rattle.std.specs.Prelude.{◌≡◌};
ghost use Rattle.ddf_config.specs.Members.{is_current};

use crate::Member;
use indexmap::IndexMap;

/// Whether the table has a member with this reference that is current.
pub fn is_current(members: &IndexMap<u32, Member>, reference: u32) -> bool
    ensures { result ≡ is_current members.now.entries reference }
{
    match members.get(&reference) {
        Some(member) => !member.missing,
        None => false,
    }
}
