//! The words of the commands over a whole array. docs/COMMANDS.md#arguments
ghost use Rattle.std.specs.Prelude.{◌≡◌, ◌∷◌, ℕ, true, codes, drop, IfOk};
ghost use Rattle.ddf_words.specs.Traits.{traits_of};
ghost use Rattle.ddf_words.specs.Words.{Word, words_of, Spells, SpellNamed, IsGroupCommand, IsNamed, GoWrongAt};

use crate::command::{Command, Creation, Wish};
use crate::element_words::elements_of;
use crate::ends::ends_at;
use crate::level_words::{level_at, secondary_at};
use crate::name_words::{name_at, plain_name_at};
use crate::number_words::byte_at;
use crate::slot_words::LAST_SLOT;
use crate::words::WordFault;
use ddf_bytes::Seq;
use std::alloc::Global;

/// The greatest stripe size code that words give.
const MOST_CODE: u8 = 15;

/// The command of words of which the first is `create`, or where they go wrong.
pub(crate) fn create_of(alloc: Global, words: &[String]) -> Result<Command, WordFault>
    ensures takes { IfOk result (λ command. (traits_of command).takes_group ≡ true) }
    ensures found { IfOk result (λ command. Spells command (codes "create" ∷ drop 1 (words_of words.now))) }
    ensures place { (place : ℕ) → result ≡ Err (WordFault.Place place) → GoWrongAt IsGroupCommand (codes "create" ∷ drop 1 (words_of words.now)) place }
{
    let name = plain_name_at(alloc, words, 1)?;
    let (level, qualifier) = level_at(words, 2)?;
    let code = byte_at(words, 3, MOST_CODE)?;
    let secondary = secondary_at(words, 4)?;
    match elements_of(alloc, &words[5..]) {
        Ok(elements) => Ok(Command::Change(Wish::Create(Creation {
            name,
            level,
            qualifier,
            code,
            secondary,
            elements,
        }))),
        Err(WordFault::Place(place)) => Err(WordFault::Place(5 + place)),
        Err(WordFault::Memory) => Err(WordFault::Memory),
    }
}

/// The command of words of which the first is `copyback`, or where they go wrong.
pub(crate) fn copyback_of(alloc: Global, words: &[String]) -> Result<Command, WordFault>
    ensures takes { IfOk result (λ command. (traits_of command).takes_group ≡ true) }
    ensures found { IfOk result (λ command. Spells command (codes "copyback" ∷ drop 1 (words_of words.now))) }
    ensures place { (place : ℕ) → result ≡ Err (WordFault.Place place) → GoWrongAt IsGroupCommand (codes "copyback" ∷ drop 1 (words_of words.now)) place }
{
    let name = name_at(alloc, words, 1)?;
    let slot = byte_at(words, 2, LAST_SLOT)?;
    ends_at(words, 3)?;
    Ok(Command::Copyback { name, slot })
}

/// The name of an array that stands alone behind a command's word, or where the words go wrong.
pub(crate) fn named_of(alloc: Global, words: &[String]) -> Result<Seq<u8>, WordFault>
    ensures found { IfOk result (λ name. (command : Word) → SpellNamed command name (command ∷ drop 1 (words_of words.now))) }
    ensures place { (place : ℕ) → result ≡ Err (WordFault.Place place) → (command : Word) → GoWrongAt (IsNamed command) (command ∷ drop 1 (words_of words.now)) place }
{
    let name = name_at(alloc, words, 1)?;
    ends_at(words, 2)?;
    Ok(name)
}
