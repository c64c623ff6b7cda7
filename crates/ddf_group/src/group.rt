//! What the slots of a bay give together.
ghost use Rattle.std.specs.Prelude.{◌≡◌, filter_map, IfOk, Ok};
ghost use Rattle.ddf_group.specs.Slots.{leaders, slot_at, view_in};
ghost use Rattle.ddf_group.specs.Conflicts.{contradiction};
ghost use Rattle.ddf_group.specs.Assembled.{UpToMemory, assembled, assembled_as, assembled_group, config_of, leading_views};
ghost use Rattle.ddf_group.specs.Names.{AreNamed};

use crate::choice::chosen;
use crate::conflict::{differing, sequence_of, twins, two_copies};
use crate::disks::{absent, lagging};
use crate::slots::Slots;
use crate::split::split_in;
use crate::views::views_of;
use crate::{Assembled, Assembly, Shown};
use ddf_bytes::{Guid, NoMemory, Seq};
use ddf_config::Config;
use ddf_view::read;
use std::alloc::Global;

/// What contradicts the group, where something does.
#[tactic(auto, unfolding(crate::specs::Conflicts::contradiction))]
fn contradiction(
    alloc: Global,
    slots: &Slots,
    group: &Guid,
    leading: &[usize],
) -> Result<Option<Assembly>, NoMemory>
    requires { leading.now ≡ leaders slots.now group.now }
    ensures { IfOk result (λ found. found ≡ contradiction slots.now group.now) }
{
    if let Some(found) = two_copies(slots, group) {
        return Ok(Some(found));
    }
    if let Some(found) = twins(alloc, slots, group)? {
        return Ok(Some(found));
    }
    if let Some(found) = differing(alloc, slots, group, leading)? {
        return Ok(Some(found));
    }
    Ok(split_in(slots, group, leading))
}

/// The configuration of a group, read from its leaders.
#[tactic(auto, unfolding(crate::specs::Assembled::config_of))]
fn config_of(
    alloc: Global,
    slots: &Slots,
    group: &Guid,
    leading: &[usize],
) -> Result<Config, NoMemory>
    requires led { leading.now ≡ leaders slots.now group.now }
    requires named { AreNamed slots.now }
    ensures { IfOk result (λ config. config ≡ config_of slots.now group.now) }
{
    let views = views_of(alloc, slots, leading)?;
    read(alloc, *group, sequence_of(slots, group), &views)
}

/// A group whose records contradict nothing, with its seats.
#[tactic(auto, unfolding(crate::specs::Assembled::assembled_as))]
fn assembled_as(
    alloc: Global,
    slots: &Slots,
    seats: Vec<usize>,
    config: Config,
) -> Result<Assembled, NoMemory>
    ensures { IfOk result (λ group. group ≡ assembled_as slots.now seats.items config) }
{
    let absent = absent(alloc, slots, &seats, &config.members)?;
    let lagging = lagging(alloc, slots, &seats, &config)?;
    Ok(Assembled {
        config,
        seats: Seq::new(seats),
        absent: Seq::new(absent),
        lagging: Seq::new(lagging),
    })
}

/// What a group's slots give together.
fn assembled_in(alloc: Global, slots: &Slots, group: &Guid) -> Result<Assembled, Assembly>
    requires { AreNamed slots.now }
    ensures { UpToMemory result (assembled_group slots.now (Ok group.now)) }
{
    let leading = slots.leaders(alloc, group)?;
    if let Some(fault) = contradiction(alloc, slots, group, &leading)? {
        return Err(fault);
    }
    let config = config_of(alloc, slots, group, &leading)?;
    let seats = slots.claimed(alloc, group)?;
    Ok(assembled_as(alloc, slots, seats, config)?)
}

/// What the slots of a bay give together (profile): the named group, or the only one that no other absorbs.
///
/// A slot shows a group where its newest copy lists its own disk as a current member. Its leaders are the slots of the greatest
/// sequence. They are to agree, and no older record may list one of them as missing. The configuration is read from them, and its
/// seats are the slots whose disks the lowest of them lists as current members.
///
/// # Errors
/// No slot shows the group; no group is named and there are several; two records contradict each other; or memory ran out.
#[tactic(auto, unfolding(crate::specs::Assembled::assembled))]
pub fn assembled(alloc: Global, shown: &[Shown], named: Option<Guid>) -> Result<Assembled, Assembly>
    requires { AreNamed shown.now }
    ensures { UpToMemory result (assembled shown.now named) }
{
    let slots = Slots::new(alloc, shown)?;
    let group = chosen(&slots, named)?;
    assembled_in(alloc, &slots, &group)
}
