//! The group that the disks show. What is promised of `assemble` is dear to whoever calls it, so it is called here.
use ddf_assembly::{Assembly, Group, assemble};
use ddf_bay::Bay;
use ddf_bytes::{Guid, NoMemory};

/// The group that a command is over, where the disks show one.
pub fn group_shown<R, B: Bay>(
    rt: &R,
    bay: &mut B,
    named: Option<Guid>,
) -> Result<Option<Group>, NoMemory>
where
    R: AllocGlobal,
{
    match assemble(rt.alloc(), bay, named) {
        Ok(group) => Ok(Some(group)),
        Err(Assembly::Memory) => Err(NoMemory),
        Err(_) => Ok(None),
    }
}
