//! The words of a line of a batch: its parts between single spaces, with slots for the images that stand for them. docs/COMMANDS.md#batch
ghost use Rattle.std.specs.Prelude.{◌≡◌, ◌∷◌, List, IfOk, position, string_bytes};
ghost use Rattle.std.specs.List.{list_all};
ghost use Rattle.std.specs.Str.{bytes_eq};
ghost use Rattle.ddf_words.specs.Words.{Word, dashes, words_of};
ghost use Rattle.ddf_words.specs.Lines.{first_numbered, is_digit, numbered, parts_of, second_numbered, slot_behind, slot_in, slot_named, takes_array, takes_slot};

use ddf_bytes::NoMemory;
use std::alloc::Global;

/// The words of a line, behind two dashes: its parts between single spaces. Where a command takes one slot, the path of an image stands for its slot.
pub fn line_words(alloc: Global, images: &[String], line: &str) -> Result<Vec<String>, NoMemory>
    ensures { IfOk result (λ words. words_of words.items ≡ dashes ∷ numbered (words_of images.now) (parts_of line.now)) }
{
    let words = parts(alloc, line)?;
    let words = first_numbered(alloc, images, words)?;
    second_numbered(alloc, images, words)
}

/// The same words, with the number of a slot where its image stands and the command takes one behind its name.
fn first_numbered(
    alloc: Global,
    images: &[String],
    words: Vec<String>,
) -> Result<Vec<String>, NoMemory>
    ensures { IfOk result (λ found. (line : List Word) → words_of words.items ≡ dashes ∷ line → words_of found.items ≡ dashes ∷ first_numbered (words_of images.now) line) }
{
    let mut words = words;
    let Some(slot) = slot_in(images, &words) else {
        return Ok(words);
    };
    words[2] = format!(in alloc; "{slot}")?;
    Ok(words)
}

/// The same where it takes one behind an array.
fn second_numbered(
    alloc: Global,
    images: &[String],
    words: Vec<String>,
) -> Result<Vec<String>, NoMemory>
    ensures { IfOk result (λ found. (line : List Word) → words_of words.items ≡ dashes ∷ line → words_of found.items ≡ dashes ∷ second_numbered (words_of images.now) line) }
{
    let mut words = words;
    let Some(slot) = slot_behind(images, &words) else {
        return Ok(words);
    };
    words[3] = format!(in alloc; "{slot}")?;
    Ok(words)
}

/// The parts of a line between single spaces, behind two dashes.
fn parts(alloc: Global, line: &str) -> Result<Vec<String>, NoMemory>
    ensures { IfOk result (λ words. words_of words.items ≡ dashes ∷ parts_of line.now) }
{
    let mut words = Vec::new(alloc);
    words.push(String::from_str(alloc, "--")?)?;
    for part in line.split(' ') {
        words.push(String::from_str(alloc, part)?)?;
    }
    Ok(words)
}

/// The slot whose image stands behind `spare` or `fail`.
fn slot_in(images: &[String], words: &[String]) -> Option<usize>
    ensures { result ≡ slot_in (words_of images.now) (words_of words.now) }
{
    match words {
        [_, name, image, ..] if takes_slot(name) => slot_named(images, image),
        _ => None,
    }
}

/// The slot whose image stands behind `copyback` and an array.
fn slot_behind(images: &[String], words: &[String]) -> Option<usize>
    ensures { result ≡ slot_behind (words_of images.now) (words_of words.now) }
{
    match words {
        [_, name, _, image, ..] if takes_array(name) => slot_named(images, image),
        _ => None,
    }
}

/// Whether a command takes one slot behind its name.
fn takes_slot(name: &String) -> bool
    ensures { result ≡ takes_slot (string_bytes name.now) }
{
    matches!(name.as_str(), "spare" | "fail")
}

/// Whether it takes one behind an array.
fn takes_array(name: &String) -> bool
    ensures { result ≡ takes_array (string_bytes name.now) }
{
    name.as_str() == "copyback"
}

/// The slot of the image with this path. A word of digits is a slot's number.
fn slot_named(images: &[String], word: &String) -> Option<usize>
    ensures { result ≡ slot_named (words_of images.now) (string_bytes word.now) }
{
    if is_number(word) {
        return None;
    }
    image_at(images, word)
}

fn is_number(word: &String) -> bool
    ensures { result ≡ list_all is_digit (string_bytes word.now) }
{
    word.as_bytes()
        .iter()
        .all(|byte| matches!(byte, b'0'..=b'9'))
}

fn image_at(images: &[String], word: &String) -> Option<usize>
    ensures { result ≡ position (λ path. bytes_eq (string_bytes path) (string_bytes word.now)) images.now }
{
    images
        .iter()
        .position(|path| path.as_str() == word.as_str())
}
