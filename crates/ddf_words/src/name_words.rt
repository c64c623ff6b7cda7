//! The words that name arrays. docs/COMMANDS.md#arguments
ghost use Rattle.std.specs.Prelude.{◌≡◌, ◌≢◌, ◌↔◌, ◌≤◌, ℕ, IsTrue, length, string_bytes, IfOk};
ghost use Rattle.ddf_words.specs.Words.{words_of, AreNames, GoWrongAt, IsName, IsPlainName, IsHexName, LacksAt, StandsAt};

use crate::words::{WordFault, is_fresh};
use ddf_bytes::{NoMemory, Seq, put_digits};
use std::alloc::Global;

/// The most bytes of a name.
const MOST_NAME_BYTES: usize = 16;

/// Whether a word is a name of plain bytes.
fn is_plain_name(word: &String) -> bool
    ensures { IsTrue result ↔ IsPlainName (string_bytes word.now) }
{
    let name = word.as_bytes();
    if name.is_empty() || name.len() > MOST_NAME_BYTES {
        return false;
    }
    name.iter().all(|byte| matches!(byte, 0x21..=0x7e))
}

/// Whether a word is `hex:` and the digits of a name.
fn is_hex_name(word: &String) -> bool
    ensures { IsTrue result ↔ IsHexName (string_bytes word.now) }
{
    let Some(digits) = word.as_bytes().strip_prefix(b"hex:") else {
        return false;
    };
    let mut name = [0; MOST_NAME_BYTES];
    let Ok(()) = hex::decode_to_slice(digits, &mut name) else {
        return false;
    };

    // Digits in upper case decode too, but are written back otherwise.
    let mut written = [0; 2 * MOST_NAME_BYTES];
    put_digits(&name, &mut written);
    digits == written.as_slice()
}

/// Whether a word names an array.
fn is_name(word: &String) -> bool
    ensures { IsTrue result ↔ IsName (string_bytes word.now) }
{
    is_plain_name(word) || is_hex_name(word)
}

/// The bytes of a word.
fn bytes_of(alloc: Global, word: &String) -> Result<Seq<u8>, NoMemory>
    ensures { IfOk result (λ bytes. bytes ≡ string_bytes word.now) }
{
    let bytes = Vec::from_slice(alloc, word.as_bytes())?;
    Ok(Seq::new(bytes))
}

/// The name of an array at a place of the words.
pub(crate) fn name_at(alloc: Global, words: &[String], place: usize) -> Result<Seq<u8>, WordFault>
    ensures found { IfOk result (λ name. StandsAt (λ word. (word ≡ name) × IsName word) (words_of words.now) place) }
    ensures place { (at : ℕ) → result ≡ Err (WordFault.Place at) → (at ≡ place) × LacksAt IsName (words_of words.now) place }
{
    let Some(word) = words.get(place) else {
        return Err(WordFault::Place(place));
    };
    if !is_name(word) {
        return Err(WordFault::Place(place));
    }
    match bytes_of(alloc, word) {
        Ok(name) => Ok(name),
        Err(NoMemory) => Err(WordFault::Memory),
    }
}

/// The name that an array is to have, at a place of the words.
pub(crate) fn plain_name_at(
    alloc: Global,
    words: &[String],
    place: usize,
) -> Result<Seq<u8>, WordFault>
    ensures found { IfOk result (λ name. StandsAt (λ word. (word ≡ name) × IsPlainName word) (words_of words.now) place) }
    ensures place { (at : ℕ) → result ≡ Err (WordFault.Place at) → (at ≡ place) × LacksAt IsPlainName (words_of words.now) place }
{
    let Some(word) = words.get(place) else {
        return Err(WordFault::Place(place));
    };
    if !is_plain_name(word) {
        return Err(WordFault::Place(place));
    }
    match bytes_of(alloc, word) {
        Ok(name) => Ok(name),
        Err(NoMemory) => Err(WordFault::Memory),
    }
}

/// The names that the words are, one or more, or where they go wrong: a word that is no name, or one that an earlier
/// word is too.
pub(crate) fn names_of(alloc: Global, words: &[String]) -> Result<Seq<Seq<u8>>, WordFault>
    ensures found { IfOk result (λ names. (names ≡ words_of words.now) × AreNames (words_of words.now)) }
    ensures place { (place : ℕ) → result ≡ Err (WordFault.Place place) → GoWrongAt AreNames (words_of words.now) place }
{
    let mut names = Vec::new(alloc);
    for (place, word) in words.iter().enumerate() {
        if !is_name(word) {
            return Err(WordFault::Place(place));
        }
        if !is_fresh(&words[..place], word) {
            return Err(WordFault::Place(place));
        }
        let Ok(name) = bytes_of(alloc, word) else {
            return Err(WordFault::Memory);
        };
        if names.push(name).is_err() {
            return Err(WordFault::Memory);
        }
    }
    if words.is_empty() {
        return Err(WordFault::Place(0));
    }
    Ok(Seq::new(names))
}
