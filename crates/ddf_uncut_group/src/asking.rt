//! Laws of changes that nothing refuses: a function that does nothing, whose contract is the laws.
ghost use Rattle.std.specs.Prelude.{◌<◌, ◌^◌, ℕ, List};
ghost use Rattle.ddf_config.specs.Configuration.{Configuration};
ghost use Rattle.ddf_plan.specs.declared.change.Change.{Change};
ghost use Rattle.ddf_seats.specs.Group.{GroupValue};
ghost use Rattle.ddf_uncut_group.specs.Asking.{AreBothReadied, AreNext, AreReadiedTo};
ghost use Rattle.ddf_uncut_group.specs.Plain.{HavePlain};
ghost use Rattle.ddf_uncut_group.specs.Settled.{IsToldByAll};

/// Changes of a settled group on plain disks that nothing of its configuration and its seats refuses are readied, one after another, each as its step or as none.
pub fn changes_that_nothing_refuses_are_readied()
    ensures all { (sizes : List ℕ) (timestamp : ℕ) (group : GroupValue) (changes : List Change) (last : Configuration) → timestamp < 2 ^ 32 → IsToldByAll group → HavePlain sizes group.newest
        → AreNext group.seats group.config changes last → AreReadiedTo sizes timestamp group changes last }
    ensures both { (sizes : List ℕ) (timestamp : ℕ) (group : GroupValue) (changes others : List Change) (middle last : Configuration) → timestamp < 2 ^ 32 → IsToldByAll group
        → HavePlain sizes group.newest → AreNext group.seats group.config changes middle → AreNext group.seats middle others last → AreBothReadied sizes timestamp group changes others middle last }
{}
