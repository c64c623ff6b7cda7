//! The sectors of a disk that are kept for its records.
ghost use Rattle.std.specs.Prelude.{◌≡◌, ◌<◌, ◌^◌, ◌++◌, IfOk, OnOk};
ghost use Rattle.std.specs.List.{flat_map};
ghost use Rattle.ddf_logs.specs.Kept.{copy_stretches, kept_under, stretches_of};

use ddf_badblocks::Stretch;
use ddf_bytes::NoMemory;
use ddf_header::{Geometry, Header, Section};
use std::alloc::Global;

/// The first sectors of the workspace that are kept (profile).
const WORKSPACE_FRONT: u64 = 18;

/// The sectors that are kept for the records of a disk with this anchor, whose copies are laid out so: the first sectors of the workspace,
/// and both headers with all their sections.
pub(crate) fn kept_under(
    alloc: Global,
    anchor: &Header,
    geometry: &Geometry,
) -> Result<Vec<Stretch>, NoMemory>
    requires primary { anchor.now.primary_lba < 2 ^ 55 }
    requires secondary { anchor.now.secondary_lba < 2 ^ 55 }
    ensures { IfOk result (λ kept. kept.items ≡ kept_under anchor.now geometry.now) }
{
    let mut kept = Vec::new(alloc);
    kept.push(Stretch {
        start: geometry.workspace_lba,
        length: WORKSPACE_FRONT,
    })?;
    keep_copy(&mut kept, anchor.primary_lba, &geometry.sections)?;
    keep_copy(&mut kept, anchor.secondary_lba, &geometry.sections)?;
    Ok(kept)
}

/// Keeps the header at an LBA and the sections of its copy.
fn keep_copy(kept: &mut Vec<Stretch>, lba: u64, sections: &[Section]) -> Result<(), NoMemory>
    requires { lba < 2 ^ 55 }
    ensures { OnOk result (kept.new.items ≡ kept.old.items ++ copy_stretches lba sections.now) }
{
    kept.push(Stretch {
        start: lba,
        length: 1,
    })?;
    keep_sections(kept, lba, sections)
}

fn keep_sections(kept: &mut Vec<Stretch>, lba: u64, sections: &[Section]) -> Result<(), NoMemory>
    requires { lba < 2 ^ 55 }
    ensures { OnOk result (kept.new.items ≡ kept.old.items ++ flat_map (stretches_of lba) sections.now) }
{
    for section in sections {
        keep_section(kept, lba, section)?;
    }
    Ok(())
}

fn keep_section(kept: &mut Vec<Stretch>, lba: u64, section: &Section) -> Result<(), NoMemory>
    requires { lba < 2 ^ 55 }
    ensures { OnOk result (kept.new.items ≡ kept.old.items ++ stretches_of lba section.now) }
{
    if section.length == 0 {
        return Ok(());
    }
    kept.push(Stretch {
        start: lba + u64::from(section.offset),
        length: u64::from(section.length),
    })?;
    Ok(())
}
