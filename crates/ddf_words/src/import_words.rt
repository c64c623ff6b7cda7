//! The words of an import. docs/COMMANDS.md#import
ghost use Rattle.std.specs.Prelude.{◌≡◌, ◌∷◌, ℕ, List, true, codes, drop, IfOk, IfSome};
ghost use Rattle.ddf_words.specs.Traits.{traits_of};
ghost use Rattle.ddf_words.specs.Words.{words_of, Spells, SpellsGuid, IsGuidWord, IsGroupCommand, LacksAt, StandsAt, GoWrongAt};

use crate::command::Command;
use crate::ends::ends_at;
use crate::words::WordFault;
use ddf_bytes::Guid;

/// The group whose GUID a text is.
fn guid_of(text: &str) -> Option<Guid>
    ensures found { IfSome result (λ group. SpellsGuid group text.now) }
    ensures every { (group : List ℕ) → SpellsGuid group text.now → result ≡ Some group }
{
    Guid::parse(text.as_bytes())
}

/// The group whose GUID stands at a place of the words.
fn guid_at(words: &[String], place: usize) -> Result<Guid, WordFault>
    ensures found { IfOk result (λ group. StandsAt (SpellsGuid group) (words_of words.now) place) }
    ensures place { (at : ℕ) → result ≡ Err (WordFault.Place at) → (at ≡ place) × LacksAt IsGuidWord (words_of words.now) place }
{
    let Some(word) = words.get(place) else {
        return Err(WordFault::Place(place));
    };
    match guid_of(word.as_str()) {
        Some(group) => Ok(group),
        None => Err(WordFault::Place(place)),
    }
}

/// The command of words of which the first is `import`, or where they go wrong.
pub(crate) fn import_of(words: &[String]) -> Result<Command, WordFault>
    ensures takes { IfOk result (λ command. (traits_of command).takes_group ≡ true) }
    ensures found { IfOk result (λ command. Spells command (codes "import" ∷ drop 1 (words_of words.now))) }
    ensures place { (place : ℕ) → result ≡ Err (WordFault.Place place) → GoWrongAt IsGroupCommand (codes "import" ∷ drop 1 (words_of words.now)) place }
{
    let group = guid_at(words, 1)?;
    ends_at(words, 2)?;
    Ok(Command::Import { group })
}
