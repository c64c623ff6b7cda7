//! What a slot shows of a group: its newest copy.
ghost use Rattle.std.specs.Prelude.{◌≡◌, option_map};
ghost use Rattle.ddf_bytes.specs.Choices.{when};
ghost use Rattle.ddf_view.specs.View.{lists_itself};
ghost use Rattle.ddf_group.specs.Shown.{shown_of};
ghost use Rattle.ddf_group.specs.Slots.{group_shown, view_in};
ghost use Rattle.ddf_group.specs.Assembled.{has_config};
ghost use Rattle.ddf_group.specs.Conflicts.{has_two, lists_missing_in};

use ddf_bytes::Guid;
use ddf_config::Config;
use ddf_copy::Newest;
use ddf_view::{View, shows};

/// What a slot shows of a group: its newest copy.
#[derive(Drop)]
pub enum Shown<'a> {
    /// Nothing: the slot is left out, or has no anchor, or no whole copy.
    Nothing,
    /// A newest copy that stands in one place.
    One(View<'a>),
    /// A newest copy that stands in both places: two level copies.
    Level(View<'a>),
    /// Two whole copies of one sequence that differ: the primary and the secondary one.
    TwoDiffer(View<'a>, View<'a>),
}

/// What a slot with this newest copy shows. None stands for a slot that is left out or has no anchor.
#[tactic(auto, unfolding(crate::specs::Shown::shown_of))]
pub fn shown_of<'a>(newest: &'a Option<Newest>) -> Shown<'a>
    ensures { result ≡ shown_of newest.now }
{
    match newest {
        None | Some(Newest::Neither(..)) => Shown::Nothing,
        Some(Newest::One(_, copy)) => Shown::One(View::new(copy)),
        Some(Newest::Level(copy)) => Shown::Level(View::new(copy)),
        Some(Newest::TwoDiffer(primary, secondary)) => {
            Shown::TwoDiffer(View::new(primary), View::new(secondary))
        }
    }
}

impl<'a> Shown<'a> {
    /// The copy that stands for the slot: of two that differ the primary one.
    pub(crate) fn view(&self) -> Option<&View<'a>>
        ensures { option_map (λ view. view.now) result ≡ view_in self.now }
    {
        match self {
            Shown::Nothing => None,
            Shown::One(view) | Shown::Level(view) | Shown::TwoDiffer(view, _) => Some(view),
        }
    }

    /// The group that the slot shows: its newest copy lists its own disk as a current member.
    pub(crate) fn group(&self) -> Option<Guid>
        ensures { result ≡ group_shown self.now }
    {
        match self {
            Shown::Nothing => None,
            Shown::One(view) | Shown::Level(view) => own_group(view),
            Shown::TwoDiffer(primary, secondary) => own_group(primary).or(own_group(secondary)),
        }
    }

    /// Whether it has two copies that differ.
    pub(crate) fn has_two(&self) -> bool
        ensures { result ≡ has_two self.now }
    {
        matches!(self, Shown::TwoDiffer(..))
    }

    /// Whether its newest copy, either one where two differ, lists a disk as a missing member.
    pub(crate) fn lists_missing(&self, guid: &Guid, reference: u32) -> bool
        ensures { result ≡ lists_missing_in self.now guid.now reference }
    {
        match self {
            Shown::Nothing => false,
            Shown::One(view) | Shown::Level(view) => view.lists_missing(guid, reference),
            Shown::TwoDiffer(primary, secondary) => {
                primary.lists_missing(guid, reference) || secondary.lists_missing(guid, reference)
            }
        }
    }

    /// Whether it has the configuration in two level copies.
    pub(crate) fn has_config(&self, config: &Config) -> bool
        ensures { result ≡ has_config config.now self.now }
    {
        match self {
            Shown::Level(view) => shows(view, config),
            _ => false,
        }
    }
}

/// The group of a copy that lists its own disk as a current member.
fn own_group(view: &View) -> Option<Guid>
    ensures { result ≡ when (lists_itself view.now) view.now.group }
{
    if view.lists_itself() {
        Some(view.group())
    } else {
        None
    }
}
