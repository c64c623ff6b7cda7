//! A disk as the group lists it, and what it may stand in for.
ghost use Rattle.std.specs.Prelude.{◌≡◌, IfOk};
ghost use Rattle.ddf_config.specs.Members.{is_spare};

use ddf_bytes::{Guid, NoMemory, Seq};
use std::alloc::Global;

/// A disk that the group's physical disk records list.
#[derive(Drop)]
pub struct Member {
    /// The GUID of the disk.
    pub guid: Guid,
    /// The configured size, in sectors: extents end within it.
    pub size: u64,
    /// Whether the disk is failed or missing. Every other member is current.
    pub missing: bool,
    /// What the disk may stand in for.
    pub spare: SpareUse,
}

/// What a spare disk may stand in for.
#[derive(Drop)]
pub enum SpareUse {
    /// The disk is no spare.
    No,
    /// A spare for every array of the group.
    Global,
    /// A spare for every array of the group that gives its place back once another disk is there.
    Revertible,
    /// A spare for these arrays, in table order.
    Dedicated(Seq<Guid>),
}

impl Member {
    /// A second value that equals this one.
    ///
    /// # Errors
    /// Memory ran out.
    pub fn duplicate(&self, alloc: Global) -> Result<Member, NoMemory>
        ensures { IfOk result (λ second. second ≡ self.now) }
    {
        let spare = self.spare.duplicate(alloc)?;
        Ok(Member {
            guid: self.guid,
            size: self.size,
            missing: self.missing,
            spare,
        })
    }
}

impl SpareUse {
    /// A second value that equals this one.
    ///
    /// # Errors
    /// Memory ran out.
    pub fn duplicate(&self, alloc: Global) -> Result<SpareUse, NoMemory>
        ensures { IfOk result (λ second. second ≡ self.now) }
    {
        match self {
            SpareUse::No => Ok(SpareUse::No),
            SpareUse::Global => Ok(SpareUse::Global),
            SpareUse::Revertible => Ok(SpareUse::Revertible),
            SpareUse::Dedicated(arrays) => {
                let arrays = Vec::from_slice(alloc, arrays.items())?;
                Ok(SpareUse::Dedicated(Seq::new(arrays)))
            }
        }
    }

    /// Whether the disk is a spare.
    pub fn is_spare(&self) -> bool
        ensures { result ≡ is_spare self.now }
    {
        !matches!(self, SpareUse::No)
    }
}
