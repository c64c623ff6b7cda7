//! Where the copies of a disk move to, to the end of its workspace.
ghost use Rattle.std.specs.Prelude.{◌≡◌, ◌≤◌, ◌<◌, ◌+◌, ◌-◌, ◌*◌, ◌^◌, None, IfSome};
ghost use Rattle.ddf_import.specs.Moving.{moved};

use crate::places::Moved;

/// The sectors at the front of a workspace that stay (profile): a write without a disk is prepared there.
pub const DESK_SECTORS: u64 = 18;

/// Where copies of so many sectors lie in a workspace, by its first sector and its length: at its end, one behind the other. None where
/// the workspace has no room for both and for the sectors that stay.
pub fn moved(workspace: u64, length: u64, copy: u64) -> Option<Moved>
    requires workspace { workspace ≤ 2 ^ 55 }
    requires length { length ≤ 2 ^ 55 }
    requires copy { copy ≤ 2 ^ 55 }
    ensures exact { result ≡ moved workspace length copy }

    // Both end with the old workspace, and what is left of it is before them.
    ensures lies { IfSome result (λ places. (places.secondary ≡ workspace + places.length) × (places.primary ≡ places.secondary + copy) × (places.primary + copy ≡ workspace + length)) }
    ensures stays { IfSome result (λ places. 18 ≤ places.length) }
    ensures none { result ≡ None → length < 2 * copy + 18 }
{
    let both = 2 * copy;
    if length < both + DESK_SECTORS {
        return None;
    }
    let end = workspace + length;
    Some(Moved {
        primary: end - copy,
        secondary: end - both,
        length: length - both,
    })
}
