//! What the slots of a bay show, each with the group that it shows.
ghost use Rattle.std.specs.Prelude.{◌≡◌, List, find, map, length, option_map, IfOk};
ghost use Rattle.ddf_group.specs.declared.shown.Shown.{Shown};
ghost use Rattle.ddf_group.specs.Assembled.{has_config};
ghost use Rattle.ddf_group.specs.Conflicts.{has_two, lists_missing_in};
ghost use Rattle.ddf_group.specs.Slots.{group_shown, leaders, leading_view, leads, none_later, numbers, claimed, claims_by, reference_at, sequence_in, shows_group, slot_at, view_in};

use crate::Shown;
use ddf_bytes::{Guid, NoMemory, Seq};
use ddf_config::Config;
use ddf_view::View;
use std::alloc::Global;
use std::marker::Model;

/// What the slots of a bay show. Contracts see the list of what each shows.
#[derive(Drop)]
pub struct Slots<'a, 'b> {
    shown: &'a [Shown<'b>],
    groups: Seq<Option<Guid>>,
}

impl<'a, 'b> Model for Slots<'a, 'b> {
    ghost use Rattle.std.specs.Prelude.{◌≡◌, List, map};
    ghost use Rattle.ddf_group.specs.declared.shown.Shown.{Shown};
    ghost use Rattle.ddf_group.specs.Slots.{group_shown};

    ghost Value = { List Shown };

    ghost view = { λ slots. slots.shown.now };

    ghost invariant = { λ slots. slots.groups ≡ map group_shown slots.shown.now };
}

/// The group that each slot shows.
fn groups_of(alloc: Global, shown: &[Shown]) -> Result<Vec<Option<Guid>>, NoMemory>
    ensures { IfOk result (λ groups. groups.items ≡ map group_shown shown.now) }
{
    let groups = shown.iter().map(|one| one.group()).collect(alloc)?;
    Ok(groups)
}

impl<'a, 'b> Slots<'a, 'b> {
    ghost use Rattle.std.specs.List.{list_all, range_with_len};

    /// The slots that show this.
    ///
    /// # Errors
    /// Memory ran out.
    pub fn new(alloc: Global, shown: &'a [Shown<'b>]) -> Result<Slots<'a, 'b>, NoMemory>
        ensures { IfOk result (λ slots. slots ≡ shown.now) }
    {
        let groups = groups_of(alloc, shown)?;
        Ok(Slots {
            shown,
            groups: Seq::new(groups),
        })
    }

    /// How many there are.
    pub(crate) fn count(&self) -> usize
        ensures { result ≡ length self.now }
    {
        self.shown.len()
    }

    /// The copy that stands for a slot.
    pub(crate) fn view(&self, slot: usize) -> Option<&View<'b>>
        ensures { option_map (λ view. view.now) result ≡ view_in (slot_at self.now slot) }
    {
        match self.shown.get(slot) {
            Some(shown) => shown.view(),
            None => None,
        }
    }

    /// Whether a slot has two copies that differ.
    pub(crate) fn has_two(&self, slot: usize) -> bool
        ensures { result ≡ has_two (slot_at self.now slot) }
    {
        match self.shown.get(slot) {
            Some(shown) => shown.has_two(),
            None => false,
        }
    }

    /// Whether a slot's newest copy, either one where two differ, lists a disk as a missing member.
    pub(crate) fn lists_missing(&self, slot: usize, guid: &Guid, reference: u32) -> bool
        ensures { result ≡ lists_missing_in (slot_at self.now slot) guid.now reference }
    {
        match self.shown.get(slot) {
            Some(shown) => shown.lists_missing(guid, reference),
            None => false,
        }
    }

    /// Whether a slot has the configuration in two level copies.
    pub(crate) fn has_config(&self, slot: usize, config: &Config) -> bool
        ensures { result ≡ has_config config.now (slot_at self.now slot) }
    {
        match self.shown.get(slot) {
            Some(shown) => shown.has_config(config),
            None => false,
        }
    }

    /// The reference of a slot's disk.
    pub(crate) fn reference(&self, slot: usize) -> Option<u32>
        ensures { result ≡ reference_at self.now slot }
    {
        match self.view(slot) {
            Some(view) => Some(view.reference()),
            None => None,
        }
    }

    /// The sequence number of a slot's newest copy.
    pub(crate) fn sequence(&self, slot: usize) -> u32
        ensures { result ≡ sequence_in (slot_at self.now slot) }
    {
        match self.view(slot) {
            Some(view) => view.sequence(),
            None => 0,
        }
    }

    /// The group that a slot shows.
    pub(crate) fn group(&self, slot: usize) -> Option<Guid>
        ensures { result ≡ group_shown (slot_at self.now slot) }
    {
        match self.groups.items().get(slot) {
            Some(group) => *group,
            None => None,
        }
    }

    /// Whether a slot shows the group.
    pub(crate) fn shows(&self, group: &Guid, slot: usize) -> bool
        ensures { result ≡ shows_group group.now (slot_at self.now slot) }
    {
        match self.group(slot) {
            Some(other) => *group == other,
            None => false,
        }
    }

    /// Whether no slot that shows the group has a greater sequence.
    fn none_later(&self, group: &Guid, sequence: u32) -> bool
        ensures { result ≡ none_later self.now group.now sequence }
    {
        (0..self.count()).all(|slot| !self.shows(group, slot) || self.sequence(slot) <= sequence)
    }

    /// Whether a slot shows the group, and none that does has a greater sequence.
    pub(crate) fn leads(&self, group: &Guid, slot: usize) -> bool
        ensures { result ≡ leads self.now group.now slot }
    {
        self.shows(group, slot) && self.none_later(group, self.sequence(slot))
    }

    /// The lowest slot that leads the group.
    pub(crate) fn first_leader(&self, group: &Guid) -> Option<usize>
        ensures { result ≡ find (leads self.now group.now) (numbers self.now) }
    {
        (0..self.count()).find(|slot| self.leads(group, *slot))
    }

    /// The slots that lead the group, in rising order.
    #[tactic(auto, unfolding(crate::specs::Slots::leaders))]
    pub(crate) fn leaders(&self, alloc: Global, group: &Guid) -> Result<Vec<usize>, NoMemory>
        ensures { IfOk result (λ slots. slots.items ≡ leaders self.now group.now) }
    {
        let slots = (0..self.count())
            .filter(|slot| self.leads(group, *slot))
            .collect(alloc)?;
        Ok(slots)
    }

    /// The copy of the lowest leader.
    #[tactic(auto, unfolding(crate::specs::Slots::leading_view))]
    pub(crate) fn leading_view(&self, group: &Guid) -> Option<&View<'b>>
        ensures { option_map (λ view. view.now) result ≡ leading_view self.now group.now }
    {
        match self.first_leader(group) {
            Some(slot) => self.view(slot),
            None => None,
        }
    }

    /// Whether a leader lists a slot's disk as a current member.
    pub(crate) fn is_claimed(&self, leader: Option<&View>, slot: usize) -> bool
        ensures { result ≡ claims_by (option_map (λ view. view.now) leader.entry) (slot_at self.now slot) }
    {
        match (leader, self.view(slot)) {
            (Some(leader), Some(disk)) => leader.lists_current(&disk.guid(), disk.reference()),
            (None, _) | (Some(_), None) => false,
        }
    }

    /// The slots that the group claims, in rising order.
    #[tactic(auto, unfolding(crate::specs::Slots::claimed))]
    pub(crate) fn claimed(&self, alloc: Global, group: &Guid) -> Result<Vec<usize>, NoMemory>
        ensures { IfOk result (λ slots. slots.items ≡ claimed self.now group.now) }
    {
        let leader = self.leading_view(group);
        let slots = (0..self.count())
            .filter(|slot| self.is_claimed(leader, *slot))
            .collect(alloc)?;
        Ok(slots)
    }
}
