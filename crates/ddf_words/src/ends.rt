//! Where words end: what stands behind the last that a command takes is a wrong word, and isn't passed over. docs/REFUSALS.md#10-word-p
ghost use Rattle.std.specs.Prelude.{◌≡◌, ◌<◌, ◌≤◌, ℕ, length, IfOk};
ghost use Rattle.ddf_words.specs.Words.{words_of};

use crate::words::WordFault;

/// That no more words are given than so many.
pub(crate) fn ends_at(words: &[String], count: usize) -> Result<(), WordFault>
    ensures found { IfOk result (λ done. length (words_of words.now) ≤ count) }
    ensures place { (at : ℕ) → result ≡ Err (WordFault.Place at) → (at ≡ count) × (count < length (words_of words.now)) }
{
    if words.len() > count {
        return Err(WordFault::Place(count));
    }
    Ok(())
}
