//! Slots that the words name by their images. docs/COMMANDS.md#arguments
use crate::element_images::{is_number, numbered_element, slot_named};
use ddf_words::image_paths;
use std::alloc::AllocError;
use std::ops::Range;

/// Puts the number of its slot for each path of an image that stands where a command takes one slot, or in an element of a new
/// array. A word of digits is a number already.
// argued: that an image where a slot is wanted becomes the number of its slot, for a word is replaced only where it is the text of a path among the
// images, and what is promised of a call speaks of its arguments after that.
pub fn number_slots<R: Eprint + AllocGlobal>(
    rt: &R,
    words: &mut Vec<String>,
) -> Result<(), AllocError> {
    name_label_words(rt, words);
    for place in slot_places(words) {
        if let Some(slot) = slot_at(words, place) {
            let number = format!(in rt.alloc(); "{slot}")?;
            put_word(words, place, number);
        }
    }
    number_elements(rt, words)
}

/// Puts the numbers of slots into the elements of `create`.
fn number_elements<R: AllocGlobal>(rt: &R, words: &mut Vec<String>) -> Result<(), AllocError> {
    for place in element_places(words) {
        let numbered = match words.get(place) {
            Some(word) => numbered_element(rt.alloc(), image_paths(words), word)?,
            None => None,
        };
        if let Some(element) = numbered {
            put_word(words, place, element);
        }
    }
    Ok(())
}

/// Puts a word in the place of another.
pub fn put_word(words: &mut Vec<String>, place: usize, new: String) {
    if let Some(word) = words.get_mut(place) {
        *word = new;
    }
}

/// Says on standard error where the path of an image is taken for a slot, and would else be the word `linux` or `large` of `label`.
fn name_label_words<R: Eprint>(rt: &R, words: &[String]) {
    let name = name_place(words);
    if !is_word(words, name, "label") {
        return;
    }
    let first = name.saturating_add(1);
    name_label_word(rt, words, first, "linux", "disks for Linux");
    name_label_word(rt, words, first, "large", "disks of a large group");
    if is_word(words, first, "linux") && slot_at(words, first).is_none() {
        let second = first.saturating_add(1);
        name_label_word(rt, words, second, "large", "disks of a large group");
    }
}

/// Says so of the word at a place, where it is this one, by what it would else make.
fn name_label_word<R: Eprint>(rt: &R, words: &[String], place: usize, word: &str, what: &str) {
    match slot_at(words, place) {
        Some(slot) if is_word(words, place, word) => {
            let _ = eprintln!(rt;
                "ddf: {word} is taken for the image of slot {slot}: with ./{word} for that image it makes {what}"
            );
        }
        _ => {}
    }
}

/// Whether this word stands at a place.
fn is_word(words: &[String], place: usize, word: &str) -> bool {
    match words.get(place) {
        Some(other) => other.as_str() == word,
        None => false,
    }
}

/// The place of the command's name, after the images, the dashes and perhaps a group.
pub fn name_place(words: &[String]) -> usize {
    let first = image_paths(words).len().saturating_add(1);
    match words.get(first) {
        Some(group) if group.starts_with('@') => first.saturating_add(1),
        _ => first,
    }
}

/// The command's name, empty where there is none.
pub fn command_word(words: &[String]) -> &str {
    match words.get(name_place(words)) {
        Some(word) => word.as_str(),
        None => "",
    }
}

/// The places of the words that name one slot each.
fn slot_places(words: &[String]) -> Range<usize> {
    let name = name_place(words);
    let behind = name.saturating_add(1);
    match words.get(name) {
        Some(command) if command.as_str() == "label" => behind..words.len(),
        Some(command) if matches!(command.as_str(), "spare" | "fail") => {
            behind..behind.saturating_add(1)
        }
        Some(command) if command.as_str() == "copyback" => {
            let slot = behind.saturating_add(1);
            slot..slot.saturating_add(1)
        }
        _ => 0..0,
    }
}

/// The places of the elements of a new array: behind `create`, a name, a level, a code and a secondary level.
fn element_places(words: &[String]) -> Range<usize> {
    let name = name_place(words);
    match words.get(name) {
        Some(command) if command.as_str() == "create" => name.saturating_add(5)..words.len(),
        _ => 0..0,
    }
}

/// The slot of the image whose path stands at a place, where it is no number.
fn slot_at(words: &[String], place: usize) -> Option<usize> {
    let word = words.get(place)?;
    if is_number(word) {
        return None;
    }
    slot_named(image_paths(words), word)
}
