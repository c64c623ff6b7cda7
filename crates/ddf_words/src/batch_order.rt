//! Whether the words ask for a batch. docs/COMMANDS.md#batch
ghost use Rattle.std.specs.Prelude.{◌≡◌, ◌∷◌, ◌++◌, [], codes, slice_index_or, IfOk};
ghost use Rattle.std.specs.Str.{bytes_eq};
ghost use Rattle.ddf_words.specs.Words.{words_of, GoWrongAt, IsAccepted};
ghost use Rattle.ddf_words.specs.Batch.{IsOrder, is_assemble};

use crate::command::Command;
use crate::words::{WordFault, asked};
use ddf_bytes::{Guid, NoMemory};
use std::alloc::Global;

/// What the program's words ask for, as far as batches go.
#[derive(Clone, Copy)]
pub enum Order {
    /// No batch: what they ask for, or where they go wrong, is told by the words of the other commands.
    Other,
    /// A batch over the named group or the only one.
    Batch(Option<Guid>),
    /// The words go wrong at this place, behind `batch`.
    Wrong(usize),
}

/// What the words ask for, as far as batches go.
pub fn order_of(alloc: Global, words: &[String]) -> Result<Order, NoMemory>
    ensures { IfOk result (IsOrder (words_of words.now)) }
{
    match asked(alloc, words).err() {
        None => Ok(Order::Other),
        Some(WordFault::Place(place)) => order_at(alloc, words, place),
        Some(WordFault::Memory) => Err(NoMemory),
    }
}

/// What words ask for that are no other command's: they go wrong at this place.
fn order_at(alloc: Global, words: &[String], place: usize) -> Result<Order, NoMemory>
    requires { GoWrongAt IsAccepted (words_of words.now) place }
    ensures { IfOk result (IsOrder (words_of words.now)) }
{
    if !is_batch_at(words, place) {
        return Ok(Order::Other);
    }
    let twin = with_assemble(alloc, &words[..place])?;
    let asked = match asked(alloc, twin.as_slice()) {
        Ok(asked) => asked,
        Err(WordFault::Place(_)) => return Ok(Order::Other),
        Err(WordFault::Memory) => return Err(NoMemory),
    };
    if !is_assemble(&asked.command) {
        return Ok(Order::Other);
    }
    if place + 1 == words.len() {
        Ok(Order::Batch(asked.group))
    } else {
        Ok(Order::Wrong(place + 1))
    }
}

fn is_assemble(command: &Command) -> bool
    ensures { result ≡ is_assemble command.now }
{
    matches!(command, Command::Assemble)
}

/// Whether the word `batch` stands at a place.
fn is_batch_at(words: &[String], place: usize) -> bool
    ensures { result ≡ bytes_eq (slice_index_or (words_of words.now) place []) (codes "batch") }
{
    match words.get(place) {
        Some(word) => word.as_str() == "batch",
        None => false,
    }
}

/// These words, and `assemble` behind them.
fn with_assemble(alloc: Global, words: &[String]) -> Result<Vec<String>, NoMemory>
    ensures { IfOk result (λ twin. words_of twin.items ≡ words_of words.now ++ codes "assemble" ∷ []) }
{
    let mut twin = Vec::new(alloc);
    for word in words {
        twin.push(word.clone()?)?;
    }
    twin.push(String::from_str(alloc, "assemble")?)?;
    Ok(twin)
}
