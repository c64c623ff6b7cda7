//! Why an array can't be viewed, as its callers tell it further.
ghost use Rattle.std.specs.Prelude.{◌≡◌};

use ddf_bytes::NoMemory;
use ddf_config::Refusal;

/// Why there is no view of an array.
#[derive(Clone, Copy, PartialEq, Eq)]
pub enum ViewFault {
    /// The array isn't there, or can't be used.
    Refused(Refusal),
    /// Memory ran out.
    Memory,
}

impl From<NoMemory> for ViewFault {
    ghost use Rattle.ddf_array.specs.declared.view_fault.ViewFault.TheVariants.{Memory};

    ghost from_gives = { λ _ fault. fault ≡ Memory };

    fn from(_error: NoMemory) -> ViewFault {
        ViewFault::Memory
    }
}
