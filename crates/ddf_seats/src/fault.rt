//! Why the steps of a group can't be made ready. Each of these is answered before anything is written.
ghost use Rattle.std.specs.Prelude.{◌≡◌};

use ddf_bytes::NoMemory;
use ddf_config::Refusal;

/// Why the changes of a group can't be made.
#[derive(Clone, Copy, PartialEq, Eq)]
pub enum GroupFault {
    /// A change is refused.
    Refused(Refusal),
    /// The sequence number after the last change would pass the greatest.
    SequenceSpent,
    /// Memory ran out.
    Memory,
}

impl From<NoMemory> for GroupFault {
    ghost use Rattle.ddf_seats.specs.declared.fault.GroupFault.TheVariants.{Memory};

    ghost from_gives = { λ _ fault. fault ≡ Memory };

    fn from(_error: NoMemory) -> GroupFault {
        GroupFault::Memory
    }
}
