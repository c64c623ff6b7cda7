//! Laws of steps: functions that do nothing, whose contracts are the laws.
ghost use Rattle.std.specs.Prelude.{◌≡◌, ℕ, List, None, Ok, true, false};
ghost use Rattle.ddf_config.specs.Configuration.{Configuration};
ghost use Rattle.ddf_plan.specs.Changes.{after};
ghost use Rattle.ddf_plan.specs.Same.{is_step};
ghost use Rattle.ddf_plan.specs.declared.change.Change.{Change};
ghost use Rattle.ddf_steps.specs.Ready.{is_spent};
ghost use Rattle.ddf_steps.specs.Refusing.{step_refusal};
ghost use Rattle.ddf_seats.specs.Seated.{seats_in};
ghost use Rattle.ddf_steps.specs.Steps.{step_of};
ghost use Rattle.ddf_seats.specs.declared.seated.Seated.{Seated};

/// The configuration of a step that is neither refused nor spent is that after its change.
pub fn a_step_gives_the_configuration_after_the_change()
    ensures { (timestamp : ℕ) (config : Configuration) (disks : List Seated) (change : Change)
        → step_refusal timestamp None config disks change ≡ None → is_step config change ≡ true
        → is_spent (step_of timestamp config disks change) ≡ false
        → after config change (seats_in disks) ≡ Ok (step_of timestamp config disks change).config }
{}
