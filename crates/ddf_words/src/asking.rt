//! What the words ask for.
ghost use Rattle.std.specs.Prelude.{◌≡◌, codes, false, IfOk, IsTrue, position, slice_index_or, string_bytes, []};
ghost use Rattle.std.specs.Str.{bytes_eq};
ghost use Rattle.ddf_words.specs.Words.{words_of, is_dashes, GoWrongAt};
ghost use Rattle.ddf_words.specs.Batch.{AskForNone, IsServed};
ghost use Rattle.ddf_words.specs.Asking.{IsAskingOf, LeadsToExercise};

use crate::batch_order::{Order, order_of};
use crate::command::Asked;
use crate::exercise_number::number_at;
use crate::words::{WordFault, asked};
use ddf_bytes::{Guid, NoMemory};
use std::alloc::Global;

/// The most rounds of an exercise.
const MOST_ROUNDS: u64 = 256;

/// What the program's words ask for.
#[derive(Drop)]
pub enum Asking {
    /// One command.
    Command(Asked),
    /// A batch over the named group or the only one.
    Batch(Option<Guid>),
    /// An exercise.
    Exercise {
        /// What its numbers come from.
        seed: u64,
        /// How many writes there are with all disks, behind the first loss and behind the second, at most 256.
        rounds: u64,
    },
    /// Nothing: the words go wrong at this place.
    Wrong(usize),
}

/// What the words ask for.
pub fn asking_of(alloc: Global, words: &[String]) -> Result<Asking, NoMemory>
    ensures { IfOk result (IsAskingOf (words_of words.now)) }
{
    match order_of(alloc, words)? {
        Order::Other => other_asking(alloc, words),
        Order::Batch(group) => Ok(Asking::Batch(group)),
        Order::Wrong(place) => Ok(asking_at(words, place)),
    }
}

/// What words ask for that ask for no batch.
fn other_asking(alloc: Global, words: &[String]) -> Result<Asking, NoMemory>
    requires { AskForNone (words_of words.now) }
    ensures { IfOk result (IsAskingOf (words_of words.now)) }
{
    match asked(alloc, words) {
        Ok(asked) => Ok(Asking::Command(asked)),
        Err(WordFault::Place(place)) => Ok(asking_at(words, place)),
        Err(WordFault::Memory) => Err(NoMemory),
    }
}

/// What words ask for that are no command's and ask for no batch: they go wrong at this place, or behind it, or ask for an exercise.
fn asking_at(words: &[String], place: usize) -> Asking
    requires { GoWrongAt IsServed (words_of words.now) place }
    ensures { IsAskingOf (words_of words.now) result }
{
    if !is_exercise_at(words, place) {
        return Asking::Wrong(place);
    }
    let Some(seed) = number_at(words, place + 1, u64::MAX) else {
        return Asking::Wrong(place + 1);
    };
    let Some(rounds) = number_at(words, place + 2, MOST_ROUNDS) else {
        return Asking::Wrong(place + 2);
    };
    if words.len() > place + 3 {
        return Asking::Wrong(place + 3);
    }
    Asking::Exercise { seed, rounds }
}

/// Whether `exercise` stands at a place, directly behind the first dashes.
fn is_exercise_at(words: &[String], place: usize) -> bool
    ensures yes { IsTrue result → LeadsToExercise (words_of words.now) place }
    ensures no { result ≡ false → LeadsToExercise (words_of words.now) place → ⊥ }
{
    let Some(count) = first_dashes(words) else {
        return false;
    };
    if place <= count {
        return false;
    }
    if place - count > 1 {
        return false;
    }
    is_exercise(words, place)
}

/// Where the first dashes stand.
fn first_dashes(words: &[String]) -> Option<usize>
    ensures { result ≡ position (λ word. is_dashes (string_bytes word)) words.now }
{
    words.iter().position(|word| word.as_str() == "--")
}

/// Whether the word `exercise` stands at a place.
fn is_exercise(words: &[String], place: usize) -> bool
    ensures { result ≡ bytes_eq (slice_index_or (words_of words.now) place []) (codes "exercise") }
{
    match words.get(place) {
        Some(word) => word.as_str() == "exercise",
        None => false,
    }
}
