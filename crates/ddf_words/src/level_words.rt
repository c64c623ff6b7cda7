//! The words of the levels of an array: a level, and how its rows lie. docs/PLACING.md#primary-levels
ghost use Rattle.std.specs.Prelude.{◌≡◌, ℕ, Some, IfOk};
ghost use Rattle.ddf_words.specs.Words.{words_of, said_by, level_rows, secondary_rows, IsLevel, IsSecondary, LacksAt, StandsAt};

use crate::words::WordFault;

/// The primary level that a word says, and its qualifier, 00 where the word tells none.
fn level_of(word: &str) -> Option<(u8, u8)>
    ensures { result ≡ said_by level_rows word.now }
{
    match word {
        "raid0" => Some((0x00, 0x00)),
        "raid1" => Some((0x01, 0x00)),
        "raid3" => Some((0x03, 0x00)),
        "raid4.first" => Some((0x04, 0x00)),
        "raid4.last" => Some((0x04, 0x01)),
        "raid5.r0" => Some((0x05, 0x00)),
        "raid5.rn" => Some((0x05, 0x02)),
        "raid5.rnc" => Some((0x05, 0x03)),
        "raid6" => Some((0x06, 0x00)),
        "mdf" => Some((0x07, 0x00)),
        "jbod" => Some((0x0f, 0x00)),
        "raid1e.adjacent" => Some((0x11, 0x00)),
        "raid1e.offset" => Some((0x11, 0x01)),
        "raid5e" => Some((0x15, 0x00)),
        "concat" => Some((0x1f, 0x00)),
        "raid5ee" => Some((0x25, 0x00)),
        "raid5r" => Some((0x35, 0x00)),
        _ => None,
    }
}

/// The secondary level that a word says: its code, or none for `single`.
fn secondary_of(word: &str) -> Option<Option<u8>>
    ensures { result ≡ said_by secondary_rows word.now }
{
    match word {
        "single" => Some(None),
        "striped" => Some(Some(0x00)),
        "mirrored" => Some(Some(0x01)),
        "concat" => Some(Some(0x02)),
        "spanned" => Some(Some(0x03)),
        _ => None,
    }
}

/// The primary level at a place of the words, and its qualifier.
pub(crate) fn level_at(words: &[String], place: usize) -> Result<(u8, u8), WordFault>
    ensures found { IfOk result (λ level. StandsAt (λ word. said_by level_rows word ≡ Some level) (words_of words.now) place) }
    ensures place { (at : ℕ) → result ≡ Err (WordFault.Place at) → (at ≡ place) × LacksAt IsLevel (words_of words.now) place }
{
    let Some(word) = words.get(place) else {
        return Err(WordFault::Place(place));
    };
    match level_of(word.as_str()) {
        Some(level) => Ok(level),
        None => Err(WordFault::Place(place)),
    }
}

/// The secondary level at a place of the words.
pub(crate) fn secondary_at(words: &[String], place: usize) -> Result<Option<u8>, WordFault>
    ensures found { IfOk result (λ secondary. StandsAt (λ word. said_by secondary_rows word ≡ Some secondary) (words_of words.now) place) }
    ensures place { (at : ℕ) → result ≡ Err (WordFault.Place at) → (at ≡ place) × LacksAt IsSecondary (words_of words.now) place }
{
    let Some(word) = words.get(place) else {
        return Err(WordFault::Place(place));
    };
    match secondary_of(word.as_str()) {
        Some(secondary) => Ok(secondary),
        None => Err(WordFault::Place(place)),
    }
}
