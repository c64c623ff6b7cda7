//! The configuration of a group: what its members and arrays are, without disks. Changes make one from another, and copies are made of it.
ghost use Rattle.std.specs.Prelude.{◌≡◌, IfOk};

use crate::table::put_last;
use crate::{Array, Member};
use ddf_bytes::{Guid, NoMemory};
use indexmap::IndexMap;
use std::alloc::Global;
use std::marker::Model;

/// The configuration of a group. Contracts see members and arrays as the lists of their entries, in table order.
#[derive(Drop)]
pub struct Config {
    /// The GUID of the group.
    pub group: Guid,
    /// The sequence number.
    pub sequence: u32,
    /// The members by reference, in table order.
    pub members: IndexMap<u32, Member>,
    /// The arrays by GUID, in table order.
    pub arrays: IndexMap<Guid, Array>,
}

impl Model for Config {
    ghost use Rattle.ddf_config.specs.Configuration.{Configuration};

    ghost Value = { Configuration };

    ghost view = { λ config. record {
      group = config.group;
      sequence = config.sequence;
      members = config.members.entries;
      arrays = config.arrays.entries;
    } };
}

impl Config {
    /// A second value that equals this one.
    ///
    /// # Errors
    /// Memory ran out.
    pub fn duplicate(&self, alloc: Global) -> Result<Config, NoMemory>
        ensures { IfOk result (λ second. second ≡ self.now) }
    {
        let members = second_members(alloc, &self.members)?;
        let arrays = second_arrays(alloc, &self.arrays)?;
        Ok(Config {
            group: self.group,
            sequence: self.sequence,
            members,
            arrays,
        })
    }
}

fn second_members(
    alloc: Global,
    members: &IndexMap<u32, Member>,
) -> Result<IndexMap<u32, Member>, NoMemory>
    ensures { IfOk result (λ second. second.entries ≡ members.now.entries) }
{
    let mut second = IndexMap::new(alloc);
    for (reference, member) in members {
        let copy = member.duplicate(alloc)?;
        put_last(&mut second, *reference, copy)?;
    }
    Ok(second)
}

fn second_arrays(
    alloc: Global,
    arrays: &IndexMap<Guid, Array>,
) -> Result<IndexMap<Guid, Array>, NoMemory>
    ensures { IfOk result (λ second. second.entries ≡ arrays.now.entries) }
{
    let mut second = IndexMap::new(alloc);
    for (guid, array) in arrays {
        let copy = array.duplicate(alloc)?;
        put_last(&mut second, *guid, copy)?;
    }
    Ok(second)
}
