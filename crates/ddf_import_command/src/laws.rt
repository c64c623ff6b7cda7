//! What holds of every import.
ghost use Rattle.std.specs.Prelude.{◌≡◌, ℕ, List, None, Ok, Option, Result, Some, true};
ghost use Rattle.ddf_config.specs.Refusals.{first_refusal};
ghost use Rattle.ddf_seats.specs.Group.{GroupValue};
ghost use Rattle.ddf_assembly.specs.Group.{group_of};
ghost use Rattle.ddf_joining.specs.Importing.{first_causes};
ghost use Rattle.ddf_assembly.specs.Slots.{first_left_out};
ghost use Rattle.ddf_answer.specs.Call.{work_of};
ghost use Rattle.ddf_answer.specs.declared.failure.Failure.{Failure};
ghost use Rattle.ddf_import_command.specs.Import.{HasImported, keeps_disks};

use ddf_bay::Bay;

/// Where disks tell what they hold, a group that refuses a join for nothing that comes first, and whose look left out no disk that joins, keeps
/// each of these disks, and none is one of its own.
pub fn a_group_keeps_the_disks_that_join_it<B: Bay>()
    ensures { (old new : B) (named : Option (List ℕ)) (other : List ℕ) (timestamp : ℕ) (outcome : Result ℕ Failure) (native joined : GroupValue) → B.tells
        → (imported : HasImported (work_of B.tells (B.disks old) (B.disks new)) named other timestamp outcome)
        → group_of imported.first.newest named ≡ Ok native → group_of imported.second.newest (Some other) ≡ Ok joined
        → first_refusal (first_causes native joined) ≡ None → first_left_out imported.first.left joined.seats ≡ None → keeps_disks native joined.seats ≡ true }
{}
