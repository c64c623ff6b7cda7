//! The words behind the dashes: the name of a group where one is meant, and a command. docs/COMMANDS.md#arguments
ghost use Rattle.std.specs.Prelude.{◌≡◌, ℕ, List, true, string_bytes, IfOk, IfSome};
ghost use Rattle.ddf_words.specs.Traits.{traits_of};
ghost use Rattle.ddf_words.specs.Words.{words_of, NamesGroup, Spells, SpellsAsked, IsCommand, IsGroupCommand, IsRequest, GoWrongAt};

use crate::array_words::{copyback_of, create_of, named_of};
use crate::block_words::{Blocks, blocks_of};
use crate::command::{Asked, Command, Wish};
use crate::disk_words::{fail_of, spare_of};
use crate::import_words::import_of;
use crate::label_words::label_of;
use crate::words::WordFault;
use ddf_bytes::Guid;
use std::alloc::Global;

/// The group that a word names: `@` and the 48 lower-case hexadecimal digits of its GUID.
fn group_of(word: &String) -> Option<Guid>
    ensures found { IfSome result (λ group. NamesGroup group (string_bytes word.now)) }
    ensures every { (group : List ℕ) → NamesGroup group (string_bytes word.now) → result ≡ Some group }
{
    match word.as_bytes() {
        [b'@', digits @ ..] => Guid::parse(digits),
        _ => None,
    }
}

/// The command over a group that the words spell, or where they go wrong.
fn group_command_of(alloc: Global, words: &[String]) -> Result<Command, WordFault>
    ensures takes { IfOk result (λ command. (traits_of command).takes_group ≡ true) }
    ensures found { IfOk result (λ command. Spells command (words_of words.now)) }
    ensures place { (place : ℕ) → result ≡ Err (WordFault.Place place) → GoWrongAt IsGroupCommand (words_of words.now) place }
{
    let Some((name, rest)) = words.split_first() else {
        return Err(WordFault::Place(0));
    };
    match name.as_str() {
        "assemble" => match rest {
            [] => Ok(Command::Assemble),
            _ => Err(WordFault::Place(1)),
        },
        "show" => match rest {
            [] => Ok(Command::Show),
            _ => Err(WordFault::Place(1)),
        },
        "read" => {
            let Blocks { name, start, count } = blocks_of(alloc, words)?;
            Ok(Command::Read { name, start, count })
        }
        "scrub" => {
            let name = named_of(alloc, words)?;
            Ok(Command::Scrub { name })
        }
        "resync" => {
            let name = named_of(alloc, words)?;
            Ok(Command::Resync { name })
        }
        "rebuild" => {
            let name = named_of(alloc, words)?;
            Ok(Command::Rebuild { name })
        }
        "copyback" => copyback_of(alloc, words),
        "write" => {
            let Blocks { name, start, count } = blocks_of(alloc, words)?;
            Ok(Command::Write { name, start, count })
        }
        "create" => create_of(alloc, words),
        "delete" => {
            let name = named_of(alloc, words)?;
            Ok(Command::Change(Wish::Delete { name }))
        }
        "accept" => {
            let name = named_of(alloc, words)?;
            Ok(Command::Change(Wish::Accept { name }))
        }
        "spare" => spare_of(alloc, words),
        "fail" => fail_of(words),
        "import" => import_of(words),
        _ => Err(WordFault::Place(0)),
    }
}

/// The command that the words spell, or where they go wrong.
fn command_of(alloc: Global, words: &[String]) -> Result<Command, WordFault>
    ensures found { IfOk result (λ command. Spells command (words_of words.now)) }
    ensures place { (place : ℕ) → result ≡ Err (WordFault.Place place) → GoWrongAt IsCommand (words_of words.now) place }
{
    let Some((name, rest)) = words.split_first() else {
        return Err(WordFault::Place(0));
    };
    match name.as_str() {
        "examine" => match rest {
            [] => Ok(Command::Examine),
            _ => Err(WordFault::Place(1)),
        },
        "label" => match label_of(alloc, rest) {
            Ok(command) => Ok(command),
            Err(WordFault::Place(place)) => Err(WordFault::Place(1 + place)),
            Err(WordFault::Memory) => Err(WordFault::Memory),
        },
        _ => group_command_of(alloc, words),
    }
}

/// What the words behind the dashes ask for, or where they go wrong.
pub(crate) fn request_of(alloc: Global, words: &[String]) -> Result<Asked, WordFault>
    ensures found { IfOk result (λ asked. SpellsAsked asked.group asked.command (words_of words.now)) }
    ensures place { (place : ℕ) → result ≡ Err (WordFault.Place place) → GoWrongAt IsRequest (words_of words.now) place }
{
    let Some((first, rest)) = words.split_first() else {
        return Err(WordFault::Place(0));
    };
    let Some(group) = group_of(first) else {
        let command = command_of(alloc, words)?;
        return Ok(Asked {
            group: None,
            command,
        });
    };
    match group_command_of(alloc, rest) {
        Ok(command) => Ok(Asked {
            group: Some(group),
            command,
        }),
        Err(WordFault::Place(place)) => Err(WordFault::Place(1 + place)),
        Err(WordFault::Memory) => Err(WordFault::Memory),
    }
}
