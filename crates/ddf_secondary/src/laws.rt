//! Laws of all tiers' spots: functions that do nothing, whose contracts are the laws.
ghost use Rattle.std.specs.Prelude.{◌≡◌, ℕ, ◌<◌, ◌≤◌, ◌*◌, length};
ghost use Rattle.ddf_secondary.specs.Arrangement.{Arrangement, IsArray};
ghost use Rattle.ddf_secondary.specs.Spots.{Holds, carried, size_of};
ghost use Rattle.ddf_secondary.specs.declared.spot.Spot.{Spot};

/// Two blocks never share a spot.
pub fn two_blocks_never_share_a_spot()
    ensures { (tiers : Arrangement) (spot : Spot) (a b : ℕ) → IsArray tiers.level tiers.sizes
        → Holds tiers spot a → Holds tiers spot b → a ≡ b }
{}

/// Every block lies in an element, among the blocks of it that hold any, and below the element's
/// capacity where its whole rows lie below it.
pub fn every_block_lies_within_its_element()
    ensures element { (tiers : Arrangement) (spot : Spot) (block : ℕ) → IsArray tiers.level tiers.sizes
        → Holds tiers spot block → spot.element < length tiers.sizes }
    ensures block { (tiers : Arrangement) (spot : Spot) (block : ℕ) → IsArray tiers.level tiers.sizes
        → Holds tiers spot block → spot.block < carried tiers spot.element }
    ensures capacity { (tiers : Arrangement) (spot : Spot) (block : ℕ) → IsArray tiers.level tiers.sizes
        → Holds tiers spot block
        → (size_of tiers.sizes spot.element).unit * (size_of tiers.sizes spot.element).rows
        ≤ (size_of tiers.sizes spot.element).capacity
        → spot.block < (size_of tiers.sizes spot.element).capacity }
{}

/// Every one of these blocks of an element holds a block.
pub fn each_carried_spot_holds_a_block()
    ensures { (tiers : Arrangement) (spot : Spot) → IsArray tiers.level tiers.sizes
        → spot.element < length tiers.sizes → spot.block < carried tiers spot.element
        → (block : ℕ) × Holds tiers spot block }
{}
