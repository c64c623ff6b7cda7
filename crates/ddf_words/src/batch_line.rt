//! The command that a line of a batch asks for, by the readers of the program's own words. docs/COMMANDS.md#batch
ghost use Rattle.std.specs.Prelude.{◌≡◌, ◌⊎◌, ◌∷◌, ℕ, List, [], slice_index_or, IfOk, string_bytes};
ghost use Rattle.ddf_words.specs.Commands.{FitsCommand};
ghost use Rattle.ddf_words.specs.Words.{Word, GoWrongAt, dashes, words_of};
ghost use Rattle.ddf_words.specs.declared.command.Command.{Command};
ghost use Rattle.ddf_words.specs.Lines.{AsksFor, IsLine, is_line_name};

use crate::command::Command;
use crate::words::{WordFault, asked};
use std::alloc::Global;

/// Whether a word is the name of a command that a line may ask for.
fn is_line_name(word: &String) -> bool
    ensures { result ≡ is_line_name (string_bytes word.now) }
{
    matches!(
        word.as_str(),
        "assemble"
            | "show"
            | "create"
            | "delete"
            | "spare"
            | "fail"
            | "rebuild"
            | "copyback"
            | "resync"
            | "accept"
            | "scrub"
            | "import"
    )
}

/// Whether the word behind two dashes is such a name.
fn is_named(words: &[String]) -> bool
    ensures { result ≡ is_line_name (slice_index_or (words_of words.now) 1 []) }
{
    match words.get(1) {
        Some(name) => is_line_name(name),
        None => false,
    }
}

/// The command that a line asks for, of its words behind two dashes, or the place in the line where they go wrong.
pub fn line_command(alloc: Global, words: &[String]) -> Result<Command, WordFault>
    ensures found { IfOk result (λ command. (line : List Word) → words_of words.now ≡ dashes ∷ line → AsksFor line command) }
    ensures fits { IfOk result FitsCommand }
    ensures every { (line : List Word) → words_of words.now ≡ dashes ∷ line → (command : Command) → AsksFor line command → (result ≡ Ok command) ⊎ (result ≡ Err WordFault.Memory) }
    ensures place { (line : List Word) → words_of words.now ≡ dashes ∷ line → (place : ℕ) → result ≡ Err (WordFault.Place place) → GoWrongAt IsLine line place }
{
    if !is_named(words) {
        return Err(WordFault::Place(0));
    }
    match asked(alloc, words) {
        Ok(asked) => Ok(asked.command),
        Err(WordFault::Place(place)) => Err(WordFault::Place(place.saturating_sub(1))),
        Err(WordFault::Memory) => Err(WordFault::Memory),
    }
}
