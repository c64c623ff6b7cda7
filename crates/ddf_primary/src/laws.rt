//! Laws of every shape's cells: functions that do nothing, whose contracts are the laws.
ghost use Rattle.std.specs.Prelude.{◌≡◌, ◌≢◌, ◌⊎◌, ◌↔◌, ℕ, Bool, List, ◌+◌, ◌*◌, ◌<◌, ◌/◌, ◌%◌, ◌||◌, Some, Ok, true, length, slice_get};
ghost use Rattle.ddf_mirror1e.specs.declared.spread.Spread.{Spread};
ghost use Rattle.ddf_primary.specs.declared.layout.Layout.{Layout};
ghost use Rattle.ddf_primary.specs.declared.layout.Layout.TheVariants.{Mirror};
ghost use Rattle.ddf_primary.specs.Placement.{Placement};
ghost use Rattle.ddf_primary.specs.Levels.{IsShape, served_layout};
ghost use Rattle.ddf_primary.specs.Needs.{is_on_two, keeps_copies, keeps_more_of, keeps_parity, need_by, need_of, one_of_each};
ghost use Rattle.ddf_primary.specs.Cells.{Holds, cells, depth_of, height_of, parity_member, twin_of};
ghost use Rattle.ddf_primary.specs.Copies.{IsHeldBy, sector_on};

/// Two blocks never share a cell.
// promise:cells
pub fn two_blocks_never_share_a_cell()
    ensures { (shape : Placement) (member sector a b : ℕ) → IsShape shape
        → Holds shape member sector a → Holds shape member sector b → a ≡ b }
{}

/// No block lies in a cell that holds parity.
// promise:cells
pub fn no_block_lies_in_a_parity_cell()
    ensures { (shape : Placement) (member sector block : ℕ) → IsShape shape
        → Holds shape member sector block
        → parity_member shape (sector / shape.strip) ≡ Some member → ⊥ }
{}

/// Every block lies on a member, at a sector that holds blocks or parity.
pub fn every_block_lies_within_the_members()
    ensures member { (shape : Placement) (member sector block : ℕ) → IsShape shape
        → Holds shape member sector block → member < shape.members }
    ensures sector { (shape : Placement) (member sector block : ℕ) → IsShape shape
        → Holds shape member sector block → sector < depth_of shape }
{}

/// Every cell at a sector that holds blocks or parity holds the parity of its row, or one block. For RAID 1E, which holds
/// each block twice, all but the last one of an odd number of strips, counted over the members row by row.
pub fn each_cell_holds_a_block_or_parity()
    ensures { (shape : Placement) (member sector : ℕ) → IsShape shape
        → member < shape.members → sector < depth_of shape
        → (is_on_two shape.layout ≡ true → (sector / shape.strip * shape.members + member) * shape.strip < 2 * length (cells shape))
        → (parity_member shape (sector / shape.strip) ≡ Some member)
        ⊎ ((block : ℕ) × Holds shape member sector block) }
{}

/// A member has a block at a sector exactly where the block lies there.
pub fn a_member_has_the_blocks_that_lie_on_it()
    ensures lies { (shape : Placement) (member sector block : ℕ) → IsShape shape
        → sector_on shape member block ≡ Some sector → Holds shape member sector block }
    ensures has { (shape : Placement) (member sector block : ℕ) → IsShape shape
        → Holds shape member sector block → sector_on shape member block ≡ Some sector }
{}

/// What an element of a served layout needs is what the codes of its level and qualifier say, and whether it keeps data in more than one
/// place what that of its level says.
pub fn a_served_layout_needs_what_its_level_says()
    ensures need { (level qualifier : ℕ) (layout : Layout)
        → served_layout level qualifier ≡ Ok layout → need_by layout ≡ need_of level qualifier }
    ensures more { (level qualifier : ℕ) (layout : Layout)
        → served_layout level qualifier ≡ Ok layout
        → (keeps_copies layout || keeps_parity layout) ≡ keeps_more_of level }
{}

/// The second copy of a block is on the member behind the first one's, round the members: on another disk, so that the
/// loss of one leaves the other.
pub fn twins_lie_on_neighbours()
    ensures follows { (shape : Placement) (block member sector other place : ℕ) → IsShape shape
        → slice_get (cells shape) block ≡ Some (member, sector) → twin_of shape block ≡ Some (other, place)
        → other ≡ (member + 1) % shape.members }
    ensures differ { (shape : Placement) (block member sector other place : ℕ) → IsShape shape
        → slice_get (cells shape) block ≡ Some (member, sector) → twin_of shape block ≡ Some (other, place)
        → member ≢ other }
    ensures row { (shape : Placement) (block member sector other place : ℕ) → IsShape shape
        → slice_get (cells shape) block ≡ Some (member, sector) → twin_of shape block ≡ Some (other, place)
        → sector / height_of shape ≡ place / height_of shape }
{}

/// An element of RAID 1E has the members that it needs exactly where each of its blocks has a copy on one that is there.
pub fn enough_members_hold_every_block()
    ensures { (shape : Placement) (spread : Spread) (there : List Bool) → IsShape shape → shape.layout ≡ Mirror spread
        → length there ≡ shape.members
        → (one_of_each spread there ≡ true) ↔ ((block : ℕ) → block < length (cells shape) → IsHeldBy shape there block) }
{}
