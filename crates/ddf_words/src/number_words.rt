//! The words of numbers in decimal.
ghost use Rattle.std.specs.Prelude.{◌≡◌, ℕ, IfOk, IfSome};
ghost use Rattle.std.specs.Fmt.{decimal};
ghost use Rattle.std.specs.Str.{bytes_eq};
ghost use Rattle.ddf_words.specs.Words.{words_of, IsNumber, LacksAt, SpellsNumber, StandsAt};

use crate::words::WordFault;
use itoa::Buffer;

/// The greatest number of a block, and the greatest count of blocks, that words give.
pub(crate) const MOST_BLOCKS: u64 = 1 << 60;

/// Whether a text is this number, without a sign and without a leading zero.
fn is_decimal(text: &str, number: u64) -> bool
    ensures { result ≡ bytes_eq text.now (decimal number) }
{
    Buffer::new().format(number) == text
}

/// The number that a text is, where it is at most so much.
pub fn number_of(text: &str, most: u64) -> Option<u64>
    ensures found { IfSome result (λ number. SpellsNumber most number text.now) }
    ensures every { (number : ℕ) → SpellsNumber most number text.now → result ≡ Some number }
{
    let Ok(number) = text.parse::<u64>() else {
        return None;
    };
    if number <= most && is_decimal(text, number) {
        Some(number)
    } else {
        None
    }
}

/// The number of one byte that a text is, where it is at most so much.
pub(crate) fn byte_of(text: &str, most: u8) -> Option<u8>
    ensures found { IfSome result (λ number. SpellsNumber most number text.now) }
    ensures every { (number : ℕ) → SpellsNumber most number text.now → result ≡ Some number }
{
    match number_of(text, u64::from(most)) {
        Some(number) => Some(number as u8),
        None => None,
    }
}

/// The number at a place of the words, which may be at most so much.
pub(crate) fn number_at(words: &[String], place: usize, most: u64) -> Result<u64, WordFault>
    ensures found { IfOk result (λ number. StandsAt (SpellsNumber most number) (words_of words.now) place) }
    ensures place { (at : ℕ) → result ≡ Err (WordFault.Place at) → (at ≡ place) × LacksAt (IsNumber most) (words_of words.now) place }
{
    let Some(word) = words.get(place) else {
        return Err(WordFault::Place(place));
    };
    match number_of(word.as_str(), most) {
        Some(number) => Ok(number),
        None => Err(WordFault::Place(place)),
    }
}

/// The number of one byte at a place of the words, which may be at most so much.
pub(crate) fn byte_at(words: &[String], place: usize, most: u8) -> Result<u8, WordFault>
    ensures found { IfOk result (λ number. StandsAt (SpellsNumber most number) (words_of words.now) place) }
    ensures place { (at : ℕ) → result ≡ Err (WordFault.Place at) → (at ≡ place) × LacksAt (IsNumber most) (words_of words.now) place }
{
    let Some(word) = words.get(place) else {
        return Err(WordFault::Place(place));
    };
    match byte_of(word.as_str(), most) {
        Some(number) => Ok(number),
        None => Err(WordFault::Place(place)),
    }
}
