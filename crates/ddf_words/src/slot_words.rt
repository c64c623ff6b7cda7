//! The words of slots: their numbers.
ghost use Rattle.std.specs.Prelude.{◌≡◌, ℕ, IfOk};
ghost use Rattle.ddf_words.specs.Words.{words_of, AreSlotWords, NameSlots, GoWrongAt};

use crate::number_words::byte_of;
use crate::words::WordFault;
use ddf_bytes::Seq;
use std::alloc::Global;

/// The last slot that words may name.
pub(crate) const LAST_SLOT: u8 = 63;

/// The slots that the words name, or where they go wrong: a word that names none, or one that an earlier word names.
pub fn slots_of(alloc: Global, words: &[String]) -> Result<Seq<u8>, WordFault>
    ensures found { IfOk result (λ slots. AreSlotWords slots (words_of words.now)) }
    ensures place { (place : ℕ) → result ≡ Err (WordFault.Place place) → GoWrongAt NameSlots (words_of words.now) place }
{
    let mut slots = Vec::new(alloc);
    for (place, word) in words.iter().enumerate() {
        let Some(slot) = byte_of(word.as_str(), LAST_SLOT) else {
            return Err(WordFault::Place(place));
        };
        if slots.contains(&slot) {
            return Err(WordFault::Place(place));
        }
        if slots.push(slot).is_err() {
            return Err(WordFault::Memory);
        }
    }
    Ok(Seq::new(slots))
}
