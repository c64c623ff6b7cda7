//! `spare`: what a disk may stand in for.
ghost use Rattle.std.specs.Prelude.{◌≡◌, IfOk, is_some, option_map};
ghost use Rattle.std.specs.List.{list_any};
ghost use Rattle.std.specs.Option.{ok_or};
ghost use Rattle.ddf_config.specs.declared.refusal.Refusal.TheVariants.{NoArray};
ghost use Rattle.ddf_request.specs.Request.{IsRequested, spare_change};
ghost use Rattle.ddf_request.specs.Spare.{has_element, served_guid, served_guids, use_of};

use crate::named::named_array;
use ddf_bytes::{Guid, NoMemory, Seq};
use ddf_config::{Array, Config, Refusal, SpareUse};
use ddf_plan::{Change, PlanFault};
use ddf_words::SpareWord;
use indexmap::IndexMap;
use std::alloc::Global;

/// Whether the disks tell of some element of an array.
fn has_element(array: &Array) -> bool
    ensures { result ≡ has_element array.now }
{
    array.elements.items().iter().any(|part| part.is_some())
}

/// The GUID of the array that a word names, where the disks tell of some element of it.
fn served_guid(arrays: &IndexMap<Guid, Array>, word: &[u8]) -> Option<Guid>
    ensures { result ≡ served_guid arrays.now.entries word.now }
{
    match named_array(arrays, word) {
        Some((guid, array)) if has_element(array) => Some(guid),
        _ => None,
    }
}

/// The GUIDs of the arrays that the words name, in the order of the words. None where the disks tell of no element of one.
fn served_guids(
    alloc: Global,
    arrays: &IndexMap<Guid, Array>,
    words: &[Seq<u8>],
) -> Result<Option<Vec<Guid>>, NoMemory>
    ensures { IfOk result (λ found. option_map (λ guids. guids.items) found ≡ served_guids arrays.now.entries words.now) }
{
    let mut guids = Vec::with_capacity(alloc, words.len())?;
    for word in words {
        match served_guid(arrays, word.items()) {
            Some(guid) => guids.push(guid)?,
            None => return Ok(None),
        }
    }
    Ok(Some(guids))
}

/// What the words let a disk stand in for. None where the disks tell of no element of an array that they name.
fn use_of(alloc: Global, config: &Config, word: &SpareWord) -> Result<Option<SpareUse>, NoMemory>
    ensures { IfOk result (λ found. ok_or found NoArray ≡ use_of config.now word.now) }
{
    match word {
        SpareWord::Global => Ok(Some(SpareUse::Global)),
        SpareWord::Revertible => Ok(Some(SpareUse::Revertible)),
        SpareWord::Off => Ok(Some(SpareUse::No)),
        SpareWord::For(names) => match served_guids(alloc, &config.arrays, names.items())? {
            Some(guids) => Ok(Some(SpareUse::Dedicated(Seq::new(guids)))),
            None => Ok(None),
        },
    }
}

/// The change that lets a disk stand in for what the words say.
pub(crate) fn spare_change(
    alloc: Global,
    config: &Config,
    reference: u32,
    word: &SpareWord,
) -> Result<Change, PlanFault>
    ensures { IsRequested (spare_change reference (use_of config.now word.now)) result }
{
    match use_of(alloc, config, word)? {
        Some(use_as) => Ok(Change::Spare(reference, use_as)),
        None => Err(PlanFault::Refused(Refusal::NoArray)),
    }
}
