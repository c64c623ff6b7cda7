//! Why the disks and arrays of another group can't join a group: each has to be told from all others there. docs/REFUSALS.md#34-clash-guid
ghost use Rattle.std.specs.Prelude.{◌≡◌, find, IfOk};
ghost use Rattle.ddf_import.specs.Clash.{has_guid, is_there, disk_clash, has_array, array_clash, bound, first_bound, bound_in, takes_name, join_cause};

use ddf_bytes::{Guid, NoMemory};
use ddf_config::{Array, Config, Extent, Member, Refusal, extents, first_refusal, refuse_if};
use ddf_plan::has_named;
use indexmap::IndexMap;
use std::alloc::Global;

fn has_guid(members: &IndexMap<u32, Member>, guid: Guid) -> bool
    ensures { result ≡ has_guid members.now.entries guid }
{
    members.iter().any(|(_, member)| member.guid == guid)
}

/// Whether a member has the GUID or the reference of a joining disk.
fn is_there(members: &IndexMap<u32, Member>, reference: u32, member: &Member) -> bool
    ensures { result ≡ is_there members.now.entries (reference, member.now) }
{
    has_guid(members, member.guid) || members.contains_key(&reference)
}

fn disk_clash(members: &IndexMap<u32, Member>, joining: &IndexMap<u32, Member>) -> Option<Refusal>
    ensures { result ≡ disk_clash members.now.entries joining.now.entries }
{
    for (reference, member) in joining {
        if is_there(members, *reference, member) {
            return Some(Refusal::Clash(member.guid));
        }
    }
    None
}

fn has_array(arrays: &IndexMap<Guid, Array>, guid: Guid, array: &Array) -> bool
    ensures { result ≡ has_array arrays.now.entries (guid, array.now) }
{
    arrays.contains_key(&guid)
}

fn array_clash(arrays: &IndexMap<Guid, Array>, joining: &IndexMap<Guid, Array>) -> Option<Refusal>
    ensures { result ≡ array_clash arrays.now.entries joining.now.entries }
{
    for (guid, array) in joining {
        if has_array(arrays, *guid, array) {
            return Some(Refusal::Clash(*guid));
        }
    }
    None
}

/// Whether a position on a reference of no member would be bound to a disk of the other side.
fn bound(
    own: &IndexMap<u32, Member>,
    others: &IndexMap<u32, Member>,
    one: &Extent,
) -> Option<Refusal>
    ensures { result ≡ bound own.now.entries others.now.entries one.now }
{
    if own.contains_key(&one.reference) {
        return None;
    }
    match others.get(&one.reference) {
        Some(member) => Some(Refusal::Clash(member.guid)),
        None => None,
    }
}

fn first_bound(
    own: &IndexMap<u32, Member>,
    others: &IndexMap<u32, Member>,
    all: &[Extent],
) -> Option<Refusal>
    ensures { result ≡ first_bound own.now.entries others.now.entries all.now }
{
    let mut rest = all;
    while let Some((one, behind)) = rest.split_first() {
        if let Some(refusal) = bound(own, others, one) {
            return Some(refusal);
        }
        rest = behind;
    }
    None
}

fn bound_in(alloc: Global, own: &Config, other: &Config) -> Result<Option<Refusal>, NoMemory>
    ensures { IfOk result (λ refusal. refusal ≡ bound_in own.now other.now) }
{
    let all = extents(alloc, &own.arrays)?;
    Ok(first_bound(&own.members, &other.members, all.as_slice()))
}

fn takes_name(config: &Config, joining: &Config) -> bool
    ensures { result ≡ takes_name config.now joining.now }
{
    joining
        .arrays
        .iter()
        .any(|(_, array)| has_named(config, &array.name))
}

fn disks_of(config: &Config, joining: &Config) -> Option<Refusal>
    ensures { result ≡ disk_clash config.now.members joining.now.members }
{
    disk_clash(&config.members, &joining.members)
}

fn arrays_of(config: &Config, joining: &Config) -> Option<Refusal>
    ensures { result ≡ array_clash config.now.arrays joining.now.arrays }
{
    array_clash(&config.arrays, &joining.arrays)
}

/// Why they can't join, the sequence number aside.
pub(crate) fn join_cause(
    alloc: Global,
    config: &Config,
    joining: &Config,
) -> Result<Option<Refusal>, NoMemory>
    ensures { IfOk result (λ refusal. refusal ≡ join_cause config.now joining.now) }
{
    let native = bound_in(alloc, config, joining)?;
    let foreign = bound_in(alloc, joining, config)?;
    let name = refuse_if(takes_name(config, joining), Refusal::NameTaken);
    let disks = disks_of(config, joining);
    let arrays = arrays_of(config, joining);
    Ok(first_refusal(&[disks, arrays, native, foreign, name]))
}
