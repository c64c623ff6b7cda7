//! The number at a place of an exercise's words. docs/COMMANDS.md#exercise
ghost use Rattle.std.specs.Prelude.{◌≡◌, IfSome};
ghost use Rattle.ddf_words.specs.Words.{words_of, IsNumber, LacksAt, SpellsNumber, StandsAt};

use crate::number_words::number_of;

/// The number at a place of the words, which may be at most so much.
pub(crate) fn number_at(words: &[String], place: usize, most: u64) -> Option<u64>
    ensures found { IfSome result (λ number. StandsAt (SpellsNumber most number) (words_of words.now) place) }
    ensures none { result ≡ None → LacksAt (IsNumber most) (words_of words.now) place }
{
    match words.get(place) {
        Some(word) => number_of(word.as_str(), most),
        None => None,
    }
}
