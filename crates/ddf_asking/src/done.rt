//! What a command did, as far as its output doesn't tell it. docs/COMMANDS.md#what-is-told-on-standard-error
use ddf_bytes::NoMemory;
use ddf_edge::{DISK_FAULT, OneLine};
use ddf_name::NameText;
use ddf_words::{Command, CreateElement, Creation, SpareWord, Wish};

/// The bytes of a block.
const BLOCK_BYTES: u64 = 512;

/// Says on standard error what a command did to which image, and at which block a `read` stopped. `taken` bytes were printed.
pub fn tell_end<R: Eprint + AllocGlobal>(
    rt: &R,
    command: &Command,
    paths: &[String],
    status: u8,
    taken: u64,
) -> Result<(), NoMemory> {
    match command {
        Command::Read { start, .. } if status == DISK_FAULT => tell_stop(rt, *start, taken),
        _ if status == 0 => return tell_done(rt, command, paths),
        _ => {}
    }
    Ok(())
}

/// Says at which block a `read` stopped, where it printed some.
fn tell_stop<R: Eprint>(rt: &R, start: u64, taken: u64) {
    let printed = taken / BLOCK_BYTES;
    if printed > 0 {
        let block = start.saturating_add(printed);
        let _ = eprintln!(rt;
            "ddf: read stopped at block {block}: that one, or one after it, can't be read"
        );
    }
}

/// Says what a command that is done did to which image.
fn tell_done<R: Eprint + AllocGlobal>(
    rt: &R,
    command: &Command,
    paths: &[String],
) -> Result<(), NoMemory> {
    match command {
        Command::Change(Wish::Fail { slot }) => tell_slot(rt, paths, *slot, "is out of use now"),
        Command::Change(Wish::Spare { slot, word }) => {
            let what = spare_text(rt, word)?;
            tell_slot(rt, paths, *slot, what.as_str());
        }
        Command::Change(Wish::Create(creation)) => return tell_created(rt, paths, creation),
        Command::Label { slots, .. } => tell_labelled(rt, paths, slots.items()),
        _ => {}
    }
    Ok(())
}

/// What a disk is a spare for.
fn spare_text<R: AllocGlobal>(rt: &R, word: &SpareWord) -> Result<String, NoMemory> {
    let names = match word {
        SpareWord::Global => return Ok(String::from_str(
            rt.alloc(),
            "is a spare for all arrays now",
        )?),
        SpareWord::Revertible => return Ok(String::from_str(
            rt.alloc(),
            "is a revertible spare for all arrays now: copyback gives its place back, where no other such spare holds a place of the same element",
        )?),
        SpareWord::Off => return Ok(String::from_str(rt.alloc(), "is no spare now")?),
        SpareWord::For(names) => names,
    };
    let mut text = String::from_str(rt.alloc(), "is a spare now for")?;
    for name in names.items() {
        let name = String::from_utf8_lossy(rt.alloc(), name.items())?;
        text.push(' ')?;
        text.push_str(name.as_str())?;
    }
    Ok(text)
}

/// Says what became of a slot.
fn tell_slot<R: Eprint>(rt: &R, paths: &[String], slot: u8, what: &str) {
    if let Some(path) = paths.get(usize::from(slot)) {
        let path = OneLine(path);
        let what = OneLine(what);
        let _ = eprintln!(rt; "ddf: slot {slot} ({path}) {what}");
    }
}

/// Says of each slot that the words name that it is labelled.
fn tell_labelled<R: Eprint>(rt: &R, paths: &[String], slots: &[u8]) {
    for slot in slots {
        tell_slot(rt, paths, *slot, "is labelled now");
    }
}

/// Says on which images a new array lies, element by element.
fn tell_created<R: Eprint + AllocGlobal>(
    rt: &R,
    paths: &[String],
    creation: &Creation,
) -> Result<(), NoMemory> {
    let mut padded = [b' '; 16];
    for (byte, character) in padded.iter_mut().zip(creation.name.items()) {
        *byte = *character;
    }
    let name = NameText(&padded);
    for element in creation.elements.items() {
        let images = images_of(rt, paths, element)?;
        let images = OneLine(images.as_str());
        let _ = eprintln!(rt; "ddf: array {name} lies on{images}");
    }
    Ok(())
}

/// The images of an element's disks, each with a blank before it.
fn images_of<R: AllocGlobal>(
    rt: &R,
    paths: &[String],
    element: &CreateElement,
) -> Result<String, NoMemory> {
    let mut images = String::new(rt.alloc());
    for slot in element.slots.items() {
        if let Some(path) = paths.get(usize::from(*slot)) {
            let image = format!(in rt.alloc(); " slot {slot} ({path})")?;
            images.push_str(image.as_str())?;
        }
    }
    Ok(images)
}
