//! Where a slot is seen to end by a later look.
ghost use Rattle.std.specs.Prelude.{◌≡◌, ◌-◌, ℕ, List, true, false};
ghost use Rattle.ddf_header.specs.Header.{header_signature};
ghost use Rattle.ddf_shortened.specs.SlotEnds.{ends_early, is_any_signature, signature_of};

/// A slot that ends early does so for the next look too, where the sector in which its anchor stands begins as a header and its last sector is what it
/// was: no call writes to that one (`behind`). One whose last sector begins as a header doesn't.
pub fn the_next_look_finds_the_same_end()
    ensures early { (size : ℕ) (before now : ℕ → List ℕ) → ends_early size before ≡ true → now (size - 1) ≡ before (size - 1)
        → signature_of (now (size - 257)) ≡ header_signature → ends_early size now ≡ true }
    ensures last { (size : ℕ) (now : ℕ → List ℕ) → is_any_signature (signature_of (now (size - 1))) ≡ true → ends_early size now ≡ false }
{}
