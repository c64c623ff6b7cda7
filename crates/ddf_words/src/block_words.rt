//! The words of commands over the blocks of an array. docs/COMMANDS.md#arguments
ghost use Rattle.std.specs.Prelude.{◌≡◌, ◌∷◌, ℕ, drop, IfOk};
ghost use Rattle.ddf_words.specs.Words.{Word, words_of, AreBlocks, SpellBlocks, GoWrongAt};

use crate::ends::ends_at;
use crate::name_words::name_at;
use crate::number_words::{MOST_BLOCKS, number_at};
use crate::words::WordFault;
use ddf_bytes::Seq;
use std::alloc::Global;

/// Blocks of an array, as words name them.
#[derive(Drop)]
pub(crate) struct Blocks {
    /// The name of the array.
    pub(crate) name: Seq<u8>,
    /// The first block.
    pub(crate) start: u64,
    /// How many blocks.
    pub(crate) count: u64,
}

/// The blocks that are named behind a command's word, or where the words go wrong.
pub(crate) fn blocks_of(alloc: Global, words: &[String]) -> Result<Blocks, WordFault>
    ensures found { IfOk result (λ blocks. (command : Word) → SpellBlocks command blocks.name blocks.start blocks.count (command ∷ drop 1 (words_of words.now))) }
    ensures place { (place : ℕ) → result ≡ Err (WordFault.Place place) → (command : Word) → GoWrongAt (AreBlocks command) (command ∷ drop 1 (words_of words.now)) place }
{
    let name = name_at(alloc, words, 1)?;
    let start = number_at(words, 2, MOST_BLOCKS)?;
    let count = number_at(words, 3, MOST_BLOCKS)?;
    ends_at(words, 4)?;
    Ok(Blocks { name, start, count })
}
