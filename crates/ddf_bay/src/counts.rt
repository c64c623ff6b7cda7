//! Counts that stand still at their last value.
ghost use Rattle.std.specs.Prelude.{◌≡◌, ◌≢◌, ◌<◌, ◌≤◌, ◌+◌, ◌-◌, ◌^◌, ℕ, slice_index};
ghost use Rattle.ddf_bytes.specs.Counts.{Rose};
ghost use Rattle.ddf_bay.specs.Counting.{one_more, with_one_more};

/// A count of calls or faults with one more, up to its last value of 2^64 - 1, where it stands still.
pub fn next(n: u64) -> u64
    ensures value { result ≡ one_more n }
    ensures more { result < 2 ^ 64 - 1 → result ≡ n + 1 }
    ensures least { n ≤ result }
    ensures most { result ≤ n + 1 }
{
    if n < u64::MAX { n + 1 } else { n }
}

/// Counts one more on a slot, up to the last value of its count.
pub fn raise(counts: &mut [u64; 64], slot: usize)
    requires { slot < 64 }
    ensures value { counts.new ≡ with_one_more counts.old slot }
    ensures rose { Rose (slice_index counts.old slot) (slice_index counts.new slot) }
    ensures most { slice_index counts.new slot ≤ one_more (slice_index counts.old slot) }
    ensures kept { (s : ℕ) → slice_index counts.old s ≤ slice_index counts.new s }
    ensures others { (s : ℕ) → s ≢ slot → slice_index counts.new s ≡ slice_index counts.old s }
{
    counts[slot] = next(counts[slot]);
}
