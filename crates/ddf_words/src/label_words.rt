//! The words behind `label`: how the disks are made, how large their group is, and the numbers of slots. docs/COMMANDS.md#label
ghost use Rattle.std.specs.Prelude.{◌≡◌, ◌≢◌, ◌∷◌, ℕ, List, None, codes, IfOk, IfSome};
ghost use Rattle.ddf_words.specs.Words.{Word, words_of, NameDisks, NameSized, SpellSized, Spells, GoWrongAt};

use crate::command::{Command, DiskStyle};
use crate::slot_words::slots_of;
use crate::words::WordFault;
use ddf_bytes::Seq;
use std::alloc::Global;

/// The slots of new disks, and whether their group is to be a large one.
#[derive(Drop)]
struct Sized {
    large: bool,
    slots: Seq<u8>,
}

/// The command of the words behind `label`, or where they go wrong.
pub(crate) fn label_of(alloc: Global, words: &[String]) -> Result<Command, WordFault>
    ensures found { IfOk result (λ command. Spells command (codes "label" ∷ words_of words.now)) }
    ensures place { (place : ℕ) → result ≡ Err (WordFault.Place place) → GoWrongAt NameDisks (words_of words.now) place }
{
    let Some(rest) = behind_linux(words) else {
        let disks = sized_of(alloc, words)?;
        return Ok(made(DiskStyle::Standard, disks));
    };
    match sized_of(alloc, rest) {
        Ok(disks) => Ok(made(DiskStyle::Linux, disks)),
        Err(WordFault::Place(place)) => Err(WordFault::Place(1 + place)),
        Err(WordFault::Memory) => Err(WordFault::Memory),
    }
}

/// The command that makes these disks in a style.
fn made(style: DiskStyle, disks: Sized) -> Command
    ensures { result ≡ Command.Label style disks.large disks.slots }
{
    Command::Label {
        style,
        large: disks.large,
        slots: disks.slots,
    }
}

/// The disks of the words behind those of their style, or where they go wrong.
fn sized_of(alloc: Global, words: &[String]) -> Result<Sized, WordFault>
    ensures found { IfOk result (λ disks. SpellSized disks.large disks.slots (words_of words.now)) }
    ensures place { (place : ℕ) → result ≡ Err (WordFault.Place place) → GoWrongAt NameSized (words_of words.now) place }
{
    let Some(rest) = behind_large(words) else {
        let slots = slots_of(alloc, words)?;
        return Ok(Sized {
            large: false,
            slots,
        });
    };
    match slots_of(alloc, rest) {
        Ok(slots) => Ok(Sized { large: true, slots }),
        Err(WordFault::Place(place)) => Err(WordFault::Place(1 + place)),
        Err(WordFault::Memory) => Err(WordFault::Memory),
    }
}

/// The words behind `linux`, where it is the first.
fn behind_linux(words: &[String]) -> Option<&[String]>
    ensures found { IfSome result (λ rest. words_of words.now ≡ codes "linux" ∷ words_of rest.now) }
    ensures none { result ≡ None → (rest : List Word) → words_of words.now ≢ codes "linux" ∷ rest }
{
    let (first, rest) = words.split_first()?;
    if first.as_str() == "linux" {
        Some(rest)
    } else {
        None
    }
}

/// The words behind `large`, where it is the first.
fn behind_large(words: &[String]) -> Option<&[String]>
    ensures found { IfSome result (λ rest. words_of words.now ≡ codes "large" ∷ words_of rest.now) }
    ensures none { result ≡ None → (rest : List Word) → words_of words.now ≢ codes "large" ∷ rest }
{
    let (first, rest) = words.split_first()?;
    if first.as_str() == "large" {
        Some(rest)
    } else {
        None
    }
}
