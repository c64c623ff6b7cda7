//! Words that only the disks complete: a group by the first digits of its GUID, and `100%` for all that is free. docs/COMMANDS.md#arguments
use crate::founded::group_at;
use crate::numbers::{free_on, strip_of};
use ddf_assembly::{Assembly, Group, assemble};
use ddf_bay::Bay;
use ddf_bytes::{Guid, NoMemory};
use ddf_edge::{name_place, put_word};
use ddf_words::{image_paths, number_of};

/// The digits of a GUID.
const GUID_DIGITS: usize = 48;

/// What stands for all the blocks that are free on the disks of an element.
const ALL: &str = "@100%";

/// The greatest code of a strip's size.
const MOST_CODE: u64 = 15;

/// Whether some word is to be completed.
pub fn is_short(words: &[String]) -> bool {
    let name = name_place(words);
    group_word(words).is_some()
        || joining_word(words, name).is_some()
        || (name..words.len()).any(|place| slots_at(words, name, place).is_some())
}

/// Puts what the disks show in the place of each short word, and says on standard error what that is.
// argued: that `100%` and the first digits of a GUID become what they stand for, for a word is replaced only by what the disks show, which standard error
// says, and what is promised of a call speaks of its arguments after that.
pub fn complete<R, B: Bay>(rt: &R, bay: &mut B, words: &mut Vec<String>) -> Result<(), NoMemory>
where
    R: Eprint + AllocGlobal,
{
    let name = name_place(words);
    if let Some(start) = group_word(words) {
        if let Some(guid) = group_that_starts(rt, bay, start)? {
            let word = format!(in rt.alloc(); "@{guid}")?;
            put_word(words, image_paths(words).len().saturating_add(1), word);
        }
    }
    if let Some(start) = joining_word(words, name) {
        if let Some(guid) = group_that_starts(rt, bay, start)? {
            let word = format!(in rt.alloc(); "{guid}")?;
            put_word(words, name.saturating_add(1), word);
        }
    }
    complete_elements(rt, bay, words, name)
}

/// The first digits of the group's GUID behind the dashes.
fn group_word(words: &[String]) -> Option<&str> {
    let word = words.get(image_paths(words).len().saturating_add(1))?;
    start_in(word.strip_prefix('@')?)
}

/// The first digits of the GUID of the group that joins.
fn joining_word(words: &[String], name: usize) -> Option<&str> {
    if words.get(name)?.as_str() != "import" {
        return None;
    }
    start_in(words.get(name.saturating_add(1))?)
}

/// The digits of a word that has some, and not as many as a GUID.
fn start_in(word: &str) -> Option<&str> {
    let are_digits = word
        .bytes()
        .all(|byte| matches!(byte, b'0'..=b'9' | b'a'..=b'f'));
    if are_digits && !word.is_empty() && word.len() < GUID_DIGITS {
        Some(word)
    } else {
        None
    }
}

/// The one group of those that the disks show whose GUID begins so.
fn group_that_starts<R, B: Bay>(
    rt: &R,
    bay: &mut B,
    start: &str,
) -> Result<Option<String>, NoMemory>
where
    R: Eprint + AllocGlobal,
{
    let mut only = None;
    let mut count = 0u64;
    for guid in groups_shown(rt, bay)?.as_slice() {
        let text = format!(in rt.alloc(); "{guid}")?;
        if text.starts_with(start) {
            count = count.saturating_add(1);
            let _ = eprintln!(rt; "ddf: {start} begins the GUID of group {text}");
            only = Some(text);
        }
    }
    if count == 0 {
        let _ = eprintln!(rt; "ddf: no disk shows a group whose GUID begins with {start}");
    }
    Ok(if count == 1 { only } else { None })
}

/// The groups that the disks show, each once.
fn groups_shown<R, B: Bay>(rt: &R, bay: &mut B) -> Result<Vec<Guid>, NoMemory>
where
    R: AllocGlobal,
{
    let mut groups = Vec::new(rt.alloc());
    for slot in 0..bay.slots() {
        if let Some(guid) = group_at(rt.alloc(), bay, slot)? {
            if !groups.contains(&guid) {
                groups.push(guid)?;
            }
        }
    }
    Ok(groups)
}

/// The slots of an element of a new array that is to take all that is free.
fn slots_at(words: &[String], name: usize, place: usize) -> Option<&str> {
    if words.get(name)?.as_str() != "create" || place < name.saturating_add(5) {
        return None;
    }
    words.get(place)?.strip_suffix(ALL)
}

/// Puts the blocks that are free into the elements that are to take all.
fn complete_elements<R, B: Bay>(
    rt: &R,
    bay: &mut B,
    words: &mut Vec<String>,
    name: usize,
) -> Result<(), NoMemory>
where
    R: Eprint + AllocGlobal,
{
    for place in name..words.len() {
        let element = match slots_at(words, name, place) {
            Some(slots) => {
                let blocks = free_blocks(rt, bay, words, name, slots)?;
                let _ = eprintln!(rt; "ddf: 100% is {blocks} blocks of each of the disks {slots}");
                format!(in rt.alloc(); "{slots}@{blocks}")?
            }
            None => continue,
        };
        put_word(words, place, element);
    }
    Ok(())
}

/// The most blocks, in whole strips, that each of these slots has in one free run, and one strip where there are none: the command says
/// why that can't be had.
fn free_blocks<R, B: Bay>(
    rt: &R,
    bay: &mut B,
    words: &[String],
    name: usize,
    slots: &str,
) -> Result<u64, NoMemory>
where
    R: AllocGlobal,
{
    let strip = strip_at(words, name.saturating_add(3)).max(1);
    let group = match assemble(rt.alloc(), bay, named_group(words)) {
        Ok(group) => group,
        Err(Assembly::Memory) => return Err(NoMemory),
        Err(_) => return Ok(strip),
    };
    let free = least_free(rt, &group, slots, strip)?;
    Ok(free.saturating_sub(free % strip).max(strip))
}

/// The blocks of a strip, by the code at a place.
fn strip_at(words: &[String], place: usize) -> u64 {
    let code = match words.get(place) {
        Some(word) => number_of(word, MOST_CODE),
        None => None,
    };
    strip_of(code.unwrap_or(0) as u8)
}

/// The group that the words name.
fn named_group(words: &[String]) -> Option<Guid> {
    let word = words.get(image_paths(words).len().saturating_add(1))?;
    Guid::parse(word.strip_prefix('@')?.as_bytes())
}

/// The least of what is free on these slots.
fn least_free<R: AllocGlobal>(
    rt: &R,
    group: &Group,
    slots: &str,
    strip: u64,
) -> Result<u64, NoMemory> {
    let mut least = u64::MAX;
    for slot in slots.split(',') {
        let free = match number_of(slot, 63) {
            Some(slot) => free_on(rt, group, slot as usize, strip)?,
            None => 0,
        };
        least = least.min(free);
    }
    Ok(least)
}
