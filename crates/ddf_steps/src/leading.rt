//! The disks of a group that lead it.
ghost use Rattle.std.specs.Prelude.{◌≡◌, filter, IfOk};
ghost use Rattle.ddf_seats.specs.Leading.{leads};
ghost use Rattle.ddf_seats.specs.Seated.{views_in};

use ddf_bytes::NoMemory;
use ddf_config::Config;
use ddf_seats::Disk;
use ddf_view::View;
use std::alloc::Global;

/// Whether a disk leads: its copy is of the group and of the configuration's sequence number, and lists the disk itself.
fn leads(config: &Config, disk: &Disk) -> bool
    ensures { result ≡ leads config.now disk.now }
{
    let header = &disk.copy.header;
    header.guid == config.group
        && header.sequence == config.sequence
        && View::new(disk.copy).lists_itself()
}

/// What the disks say that lead, the lowest first.
pub fn leading_views<'a>(
    alloc: Global,
    config: &Config,
    disks: &[Disk<'a>],
) -> Result<Vec<View<'a>>, NoMemory>
    ensures { IfOk result (λ views. views.items ≡ views_in (filter (leads config.now) disks.now)) }
{
    let mut views = Vec::new(alloc);
    for disk in disks {
        if leads(config, disk) {
            views.push(View::new(disk.copy))?;
        }
    }
    Ok(views)
}

/// Those disks of a group that lead it, the lowest first.
pub fn leading_disks<'a>(
    alloc: Global,
    config: &Config,
    disks: &[Disk<'a>],
) -> Result<Vec<Disk<'a>>, NoMemory>
    ensures { IfOk result (λ leaders. leaders.items ≡ filter (leads config.now) disks.now) }
{
    let mut leaders = Vec::new(alloc);
    for disk in disks {
        if leads(config, disk) {
            leaders.push(disk.again())?;
        }
    }
    Ok(leaders)
}
