//! Laws of the copies: functions that do nothing, whose contracts are the laws.
ghost use Rattle.std.specs.Prelude.{◌≡◌, ◌≢◌, ◌<◌, ◌*◌, ◌/◌, ℕ, true};
ghost use Rattle.ddf_mirror1e.specs.Mirror.{Mirror};
ghost use Rattle.ddf_mirror1e.specs.Codes.{IsMirror};
ghost use Rattle.ddf_mirror1e.specs.Copies.{Holds, capacity, first, second, following, begins_pairs};

/// Two blocks never share a cell: neither with their first copies, nor with their second, nor with one of each.
pub fn two_blocks_never_share_a_cell()
    ensures { (mirror : Mirror) (member sector a b : ℕ) → IsMirror mirror
        → Holds mirror member sector a → Holds mirror member sector b → a ≡ b }
{}

/// Each copy of a block lies on a member, at a sector of its whole strips.
pub fn every_copy_lies_within_the_members()
    ensures member { (mirror : Mirror) (member sector block : ℕ) → IsMirror mirror
        → Holds mirror member sector block → member < mirror.members }
    ensures sector { (mirror : Mirror) (member sector block : ℕ) → IsMirror mirror
        → Holds mirror member sector block → sector < mirror.blocks / mirror.strip * mirror.strip }
{}

/// The copies of a block lie on a member and on the one behind it, which is another.
pub fn both_copies_lie_on_neighbours()
    ensures follows { (mirror : Mirror) (block : ℕ) → IsMirror mirror
        → (second mirror block).0 ≡ following mirror.members (first mirror block).0 }
    ensures differ { (mirror : Mirror) (block : ℕ) → IsMirror mirror
        → (first mirror block).0 ≢ (second mirror block).0 }
{}

/// Both copies of a block lie in one pair of rows of strips, which is the block's data row.
pub fn both_copies_lie_in_one_pair_of_rows()
    ensures first { (mirror : Mirror) (block : ℕ) → IsMirror mirror
        → (first mirror block).1 / mirror.strip / 2 ≡ block / mirror.strip / mirror.members }
    ensures second { (mirror : Mirror) (block : ℕ) → IsMirror mirror
        → (second mirror block).1 / mirror.strip / 2 ≡ block / mirror.strip / mirror.members }
{}

/// First copies are on every second member of an even number of adjacent ones, and elsewhere on every one.
/// The second copy is on the member behind: so an element can do without positions as long as of no such pair both are away.
pub fn copies_begin_on_these_members()
    ensures only { (mirror : Mirror) (block : ℕ) → IsMirror mirror
        → begins_pairs mirror.spread mirror.members (first mirror block).0 ≡ true }
    ensures each { (mirror : Mirror) (member : ℕ) → IsMirror mirror → member < mirror.members
        → begins_pairs mirror.spread mirror.members member ≡ true
        → (block : ℕ) × ((block < capacity mirror) × ((first mirror block).0 ≡ member)) }
{}
