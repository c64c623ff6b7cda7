//! The first pair of slots of which something is found, the earlier slot first.
ghost use Rattle.std.specs.Prelude.{◌≡◌};
ghost use Rattle.ddf_group.specs.Pairs.{first_pair, first_with};

use crate::Assembly;

/// In what two slots may contradict each other.
pub(crate) trait Contrast {
    ghost use Rattle.std.specs.Prelude.{◌≡◌, ℕ, Option};
    ghost use Rattle.ddf_group.specs.declared.answer.Assembly.{Assembly};

    ghost contradicts: { Self → ℕ → ℕ → Option Assembly };

    /// What two slots do.
    fn contradict(&self, i: usize, j: usize) -> Option<Assembly>
        ensures { result ≡ contradicts self.now i j };
}

/// What a slot and the first of these do.
fn first_with<T: Contrast>(contrast: &T, i: usize, others: &[usize]) -> Option<Assembly>
    ensures { result ≡ first_with (T.contradicts contrast.now i) others.now }
{
    for j in others {
        if let Some(found) = contrast.contradict(i, *j) {
            return Some(found);
        }
    }
    None
}

/// What the first two of these slots do.
pub(crate) fn first_pair<T: Contrast>(contrast: &T, all: &[usize]) -> Option<Assembly>
    ensures { result ≡ first_pair (T.contradicts contrast.now) all.now }
{
    for (place, i) in all.iter().enumerate() {
        if let Some(found) = first_with(contrast, *i, &all[place + 1..]) {
            return Some(found);
        }
    }
    None
}
