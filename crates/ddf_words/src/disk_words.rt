//! The words of the commands over the disk of a slot. docs/COMMANDS.md#arguments
ghost use Rattle.std.specs.Prelude.{◌≡◌, ◌∷◌, ℕ, true, codes, drop, IfOk};
ghost use Rattle.ddf_words.specs.Traits.{traits_of};
ghost use Rattle.ddf_words.specs.Words.{words_of, Spells, SpellsSpare, AreSpareWords, IsGroupCommand, GoWrongAt};

use crate::command::{Command, SpareWord, Wish};
use crate::ends::ends_at;
use crate::name_words::names_of;
use crate::number_words::byte_at;
use crate::slot_words::LAST_SLOT;
use crate::words::WordFault;
use std::alloc::Global;

/// The command of words of which the first is `fail`, or where they go wrong.
pub(crate) fn fail_of(words: &[String]) -> Result<Command, WordFault>
    ensures takes { IfOk result (λ command. (traits_of command).takes_group ≡ true) }
    ensures found { IfOk result (λ command. Spells command (codes "fail" ∷ drop 1 (words_of words.now))) }
    ensures place { (place : ℕ) → result ≡ Err (WordFault.Place place) → GoWrongAt IsGroupCommand (codes "fail" ∷ drop 1 (words_of words.now)) place }
{
    let slot = byte_at(words, 1, LAST_SLOT)?;
    ends_at(words, 2)?;
    Ok(Command::Change(Wish::Fail { slot }))
}

/// What the words say that a disk is to be a spare for, or where they go wrong.
fn spare_word_of(alloc: Global, words: &[String]) -> Result<SpareWord, WordFault>
    ensures found { IfOk result (λ word. SpellsSpare word (words_of words.now)) }
    ensures place { (place : ℕ) → result ≡ Err (WordFault.Place place) → GoWrongAt AreSpareWords (words_of words.now) place }
{
    let Some((first, names)) = words.split_first() else {
        return Err(WordFault::Place(0));
    };
    match first.as_str() {
        "global" => {
            ends_at(words, 1)?;
            Ok(SpareWord::Global)
        }
        "revertible" => {
            ends_at(words, 1)?;
            Ok(SpareWord::Revertible)
        }
        "off" => {
            ends_at(words, 1)?;
            Ok(SpareWord::Off)
        }
        "for" => match names_of(alloc, names) {
            Ok(names) => Ok(SpareWord::For(names)),
            Err(WordFault::Place(place)) => Err(WordFault::Place(1 + place)),
            Err(WordFault::Memory) => Err(WordFault::Memory),
        },
        _ => Err(WordFault::Place(0)),
    }
}

/// The command of words of which the first is `spare`, or where they go wrong.
pub(crate) fn spare_of(alloc: Global, words: &[String]) -> Result<Command, WordFault>
    ensures takes { IfOk result (λ command. (traits_of command).takes_group ≡ true) }
    ensures found { IfOk result (λ command. Spells command (codes "spare" ∷ drop 1 (words_of words.now))) }
    ensures place { (place : ℕ) → result ≡ Err (WordFault.Place place) → GoWrongAt IsGroupCommand (codes "spare" ∷ drop 1 (words_of words.now)) place }
{
    let slot = byte_at(words, 1, LAST_SLOT)?;
    match spare_word_of(alloc, &words[2..]) {
        Ok(word) => Ok(Command::Change(Wish::Spare { slot, word })),
        Err(WordFault::Place(place)) => Err(WordFault::Place(2 + place)),
        Err(WordFault::Memory) => Err(WordFault::Memory),
    }
}
