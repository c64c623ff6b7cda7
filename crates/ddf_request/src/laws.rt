//! Laws of the words of arrays: functions that do nothing, whose contracts are the laws.
ghost use Rattle.std.specs.Prelude.{◌≡◌, ℕ, List, Ok, Some, option_map};
ghost use Rattle.ddf_bytes.specs.declared.stamp.Stamp.{Stamp};
ghost use Rattle.ddf_config.specs.Configuration.{Configuration};
ghost use Rattle.ddf_config.specs.declared.array.Array.{Array};
ghost use Rattle.ddf_config.specs.declared.seat.Seat.{Seat};
ghost use Rattle.ddf_name.specs.Names.{name_text};
ghost use Rattle.ddf_plan.specs.Changes.{after};
ghost use Rattle.ddf_plan.specs.declared.change.Change.TheVariants.{Create};
ghost use Rattle.ddf_words.specs.Words.{IsPlainName};
ghost use Rattle.ddf_words.specs.declared.command.Creation.{Creation};
ghost use Rattle.ddf_request.specs.Named.{named_array};
ghost use Rattle.ddf_request.specs.NewArray.{new_array, new_array_guid};

/// The word that an array was created with names this array in the configuration that its creation leaves, and no other one that was there
/// before: so does, of any array that is created, the word that its name prints as.
pub fn a_new_array_is_named_by_its_word()
    ensures created { (config next : Configuration) (seats all : List Seat) (stamp : Stamp) (creation : Creation) → IsPlainName creation.name
        → after config (Create (new_array_guid config stamp) (new_array config seats creation)) all ≡ Ok next
        → option_map (λ (entry : List ℕ × Array). entry.0) (named_array next.arrays creation.name) ≡ Some (new_array_guid config stamp) }
    ensures printed { (config next : Configuration) (all : List Seat) (guid : List ℕ) (array : Array) → after config (Create guid array) all ≡ Ok next
        → option_map (λ (entry : List ℕ × Array). entry.0) (named_array next.arrays (name_text array.name)) ≡ Some guid }
{}
