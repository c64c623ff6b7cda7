//! The words of the elements of an array. docs/COMMANDS.md#create
ghost use Rattle.std.specs.Prelude.{◌≡◌, ℕ, List, None, IfOk, IfSome};
ghost use Rattle.ddf_words.specs.Words.{words_of, AreElements, AreElementWords, SpellsElement, SpellsSlots, GoWrongAt};

use crate::command::CreateElement;
use crate::number_words::{byte_of, number_of};
use crate::slot_words::LAST_SLOT;
use crate::words::WordFault;
use ddf_bytes::{NoMemory, Seq};
use std::alloc::Global;

/// The most elements of an array.
const MOST_ELEMENTS: usize = 16;

/// The most slots of an element.
const MOST_ELEMENT_SLOTS: usize = 64;

/// The most blocks of a member.
const MOST_MEMBER_BLOCKS: u64 = 1 << 48;

/// The slots that a text names, joined by commas.
fn element_slots_of(alloc: Global, text: &str) -> Result<Option<Seq<u8>>, NoMemory>
    ensures found { IfOk result (λ found. IfSome found (λ slots. SpellsSlots slots text.now)) }
    ensures none { result ≡ Ok None → (slots : List ℕ) → SpellsSlots slots text.now → ⊥ }
{
    let mut slots = Vec::new(alloc);
    for part in text.split(',') {
        let Some(slot) = byte_of(part, LAST_SLOT) else {
            return Ok(None);
        };
        if slots.len() >= MOST_ELEMENT_SLOTS {
            return Ok(None);
        }
        slots.push(slot)?;
    }
    Ok(Some(Seq::new(slots)))
}

/// The element that a word spells: its slots joined by commas, `@`, and the blocks of each member.
fn element_of(alloc: Global, word: &str) -> Result<Option<CreateElement>, NoMemory>
    ensures found { IfOk result (λ found. IfSome found (λ element. SpellsElement element word.now)) }
    ensures none { result ≡ Ok None → (element : CreateElement) → SpellsElement element word.now → ⊥ }
{
    let Some((slots, extent)) = word.split_once('@') else {
        return Ok(None);
    };
    let Some(extent) = number_of(extent, MOST_MEMBER_BLOCKS) else {
        return Ok(None);
    };
    if extent == 0 {
        return Ok(None);
    }
    match element_slots_of(alloc, slots)? {
        Some(slots) => Ok(Some(CreateElement {
            slots,
            blocks: extent,
        })),
        None => Ok(None),
    }
}

/// The elements that the words spell, or where they go wrong.
pub(crate) fn elements_of(alloc: Global, words: &[String]) -> Result<Seq<CreateElement>, WordFault>
    ensures found { IfOk result (λ elements. AreElementWords elements (words_of words.now)) }
    ensures place { (place : ℕ) → result ≡ Err (WordFault.Place place) → GoWrongAt AreElements (words_of words.now) place }
{
    let mut elements = Vec::new(alloc);
    for (place, word) in words.iter().enumerate() {
        if place >= MOST_ELEMENTS {
            return Err(WordFault::Place(place));
        }
        let element = match element_of(alloc, word.as_str()) {
            Ok(Some(element)) => element,
            Ok(None) => return Err(WordFault::Place(place)),
            Err(NoMemory) => return Err(WordFault::Memory),
        };
        if elements.push(element).is_err() {
            return Err(WordFault::Memory);
        }
    }
    if words.is_empty() {
        return Err(WordFault::Place(0));
    }
    Ok(Seq::new(elements))
}
