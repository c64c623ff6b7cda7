//! The words that the program is given: the paths of images, two dashes, the name of a group where one is meant, and a command.
//! docs/COMMANDS.md#arguments
ghost use Rattle.std.specs.Prelude.{◌≡◌, ◌≢◌, ◌<◌, ◌≤◌, ◌⊎◌, ◌↔◌, ℕ, All, length, IsTrue, position, string_bytes, IfOk, IfErr};
ghost use Rattle.ddf_words.specs.Commands.{FitsCommand};
ghost use Rattle.ddf_words.specs.Words.{words_of, images_of, is_dashes, slot_count, IsNextImage, IsAsked, IsAccepted, LeadsWithImages, GoWrongAt};

use crate::command::Asked;
use crate::request::request_of;
use std::alloc::Global;

/// The most images that the words may name.
pub const MOST_IMAGES: usize = 64;

/// Why words are no command's.
#[derive(Clone, Copy, PartialEq, Eq)]
pub enum WordFault {
    /// The words go wrong at this place: so many of them are the most with which a good list of words begins.
    Place(usize),
    /// Memory ran out.
    Memory,
}

/// Whether a word is this text.
fn is(word: &String, text: &str) -> bool
    ensures { IsTrue result ↔ (string_bytes word.now ≡ text.now) }
{
    word.as_str() == text
}

/// Where the first `--` stands.
fn dashes_at(words: &[String]) -> Option<usize>
    ensures { result ≡ position (λ word. is_dashes (string_bytes word)) words.now }
{
    words.iter().position(|word| word.as_str() == "--")
}

/// The paths of the images: the words before the first `--`, or none where there is no `--`.
pub fn image_paths(words: &[String]) -> &[String]
    ensures { words_of result.now ≡ images_of (words_of words.now) }
{
    match dashes_at(words) {
        Some(count) => &words[..count],
        None => &[],
    }
}

/// The paths of the images that a bay is made of: none where the words name more than may be.
pub fn slot_paths(words: &[String]) -> &[String]
    ensures count { length result.now ≡ slot_count (words_of words.now) }
    ensures few { length result.now ≤ 64 }
    ensures paths { length result.now ≡ length (images_of (words_of words.now)) → words_of result.now ≡ images_of (words_of words.now) }
{
    let paths = image_paths(words);
    if paths.len() <= MOST_IMAGES {
        paths
    } else {
        &[]
    }
}

/// Whether a word is another path than those before it.
pub(crate) fn is_fresh(before: &[String], word: &String) -> bool
    ensures { IsTrue result ↔ All (λ other. string_bytes other ≢ string_bytes word.now) before.now }
{
    before.iter().all(|other| other.as_str() != word.as_str())
}

/// Whether a word may stand among the images, behind the words before it.
fn is_image(words: &[String], place: usize) -> bool
    requires { place < length words.now }
    ensures { IsTrue result ↔ IsNextImage (words_of words.now) place }
{
    let word = &words[place];
    if word.is_empty() {
        return false;
    }
    if place >= MOST_IMAGES {
        return false;
    }
    is_fresh(&words[..place], word)
}

/// How many images the words begin with, up to the dashes, or the place where they go wrong before.
fn image_count(words: &[String]) -> Result<usize, usize>
    ensures found { IfOk result (LeadsWithImages (words_of words.now)) }
    ensures wrong { IfErr result (GoWrongAt IsAccepted (words_of words.now)) }
{
    for (place, word) in words.iter().enumerate() {
        if is(word, "--") {
            return Ok(place);
        }
        if !is_image(words, place) {
            return Err(place);
        }
    }
    Err(words.len())
}

/// Reads the words: `IMAGE.. -- [@GROUP] COMMAND`. `GROUP` is 48 lower-case hexadecimal digits, the GUID of the
/// group that the command is done to.
pub fn asked(alloc: Global, words: &[String]) -> Result<Asked, WordFault>
    ensures ok { IfOk result (IsAsked (words_of words.now)) }
    ensures fits { IfOk result (λ asked. FitsCommand asked.command) }
    ensures every { (asked : Asked) → IsAsked (words_of words.now) asked → (result ≡ Ok asked) ⊎ (result ≡ Err WordFault.Memory) }
    ensures place { (place : ℕ) → result ≡ Err (WordFault.Place place) → GoWrongAt IsAccepted (words_of words.now) place }
{
    let images = match image_count(words) {
        Ok(images) => images,
        Err(place) => return Err(WordFault::Place(place)),
    };
    match request_of(alloc, &words[images + 1..]) {
        Ok(asked) => Ok(asked),
        Err(WordFault::Place(place)) => Err(WordFault::Place(images + 1 + place)),
        Err(WordFault::Memory) => Err(WordFault::Memory),
    }
}
