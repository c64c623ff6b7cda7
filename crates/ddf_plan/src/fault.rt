//! Why a change gives no configuration.
ghost use Rattle.std.specs.Prelude.{◌≡◌};

use ddf_bytes::NoMemory;
use ddf_config::Refusal;

/// Why `apply` gives no configuration.
#[derive(Clone, Copy, PartialEq, Eq)]
pub enum PlanFault {
    /// The change is refused.
    Refused(Refusal),
    /// Memory ran out.
    Memory,
}

impl From<NoMemory> for PlanFault {
    ghost use Rattle.ddf_plan.specs.declared.fault.PlanFault.TheVariants.{Memory};

    ghost from_gives = { λ _ fault. fault ≡ Memory };

    fn from(_error: NoMemory) -> PlanFault {
        PlanFault::Memory
    }
}
