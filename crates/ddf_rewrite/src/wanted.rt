//! The elements of which a group keeps records.
ghost use Rattle.std.specs.Prelude.{◌≡◌, ◌==◌, ◌++◌, IfOk, OnOk};
ghost use Rattle.std.specs.List.{flat_map, list_any};
ghost use Rattle.ddf_rewrite.specs.Wanted.{all_wanted, refers_to, wanted_of};

use ddf_bytes::{Guid, NoMemory};
use ddf_config::{Array, Config, ElementPlan};
use indexmap::IndexMap;
use std::alloc::Global;
use std::marker::Model;

/// An element of an array of the group that is known. Contracts see it without the references.
#[derive(Drop)]
pub(crate) struct Wanted<'a> {
    /// The GUID of its array.
    pub guid: Guid,
    /// The array.
    pub array: &'a Array,
    /// Its place among the elements.
    pub index: usize,
    /// What it is.
    pub plan: &'a ElementPlan,
}

impl<'a> Model for Wanted<'a> {
    ghost use Rattle.ddf_rewrite.specs.Wanted as wanted;

    ghost Value = { wanted.Wanted };

    ghost view = { λ one. record { guid = one.guid; array = one.array.now; index = one.index; plan = one.plan.now } };
}

impl<'a> Wanted<'a> {
    /// The same element once more.
    pub(crate) fn again(&self) -> Wanted<'a>
        ensures { result ≡ self.now }
    {
        Wanted {
            guid: self.guid,
            array: self.array,
            index: self.index,
            plan: self.plan,
        }
    }

    /// Whether it has a position on the disk with this reference.
    pub(crate) fn refers_to(&self, reference: u32) -> bool
        ensures { result ≡ refers_to self.now.plan reference }
    {
        has_position(self.plan, reference)
    }
}

/// Whether an element has a position on the disk with this reference.
fn has_position(plan: &ElementPlan, reference: u32) -> bool
    ensures { result ≡ refers_to plan.now reference }
{
    plan.positions
        .as_slice()
        .iter()
        .any(|position| position.reference == reference)
}

/// Puts the known elements of an array behind others.
fn push_wanted<'a>(all: &mut Vec<Wanted<'a>>, guid: Guid, array: &'a Array) -> Result<(), NoMemory>
    ensures { OnOk result (all.new.items ≡ all.old.items ++ wanted_of (guid, array.now)) }
{
    for (index, part) in array.elements.items().iter().enumerate() {
        if let Some(plan) = part {
            all.push(Wanted {
                guid,
                array,
                index,
                plan,
            })?;
        }
    }
    Ok(())
}

/// The known elements of arrays, in table order.
fn wanted_in(alloc: Global, arrays: &IndexMap<Guid, Array>) -> Result<Vec<Wanted<'_>>, NoMemory>
    ensures { IfOk result (λ all. all.items ≡ flat_map wanted_of arrays.now.entries) }
{
    let mut all = Vec::new(alloc);
    for (guid, array) in arrays {
        push_wanted(&mut all, *guid, array)?;
    }
    Ok(all)
}

/// The known elements of a configuration, by table order of the arrays and by their places.
#[tactic(auto, unfolding(crate::specs::Wanted::all_wanted))]
pub(crate) fn all_wanted(alloc: Global, config: &Config) -> Result<Vec<Wanted<'_>>, NoMemory>
    ensures { IfOk result (λ all. all.items ≡ all_wanted config.now) }
{
    wanted_in(alloc, &config.arrays)
}
