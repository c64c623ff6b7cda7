//! What a line of a scenario is answered.
use crate::call::{command, command_alone};
use crate::compare::{compare, look_for_linux};
use crate::disks::Disks;
use crate::edit::edit_disks;
use crate::input::input_of;
use crate::program::Program;
use crate::row::fill_row;
use crate::vectors::vector;
use anyhow::bail;
use std::alloc::Global;

/// The answer of a line: one that begins with `$$` is a call with all its words over small blank disks, with `$` a command of `ddf`
/// over all disks of the scenario, and with `%` something else.
pub fn answer<P: Program>(
    alloc: Global,
    program: &P,
    disks: &mut Disks,
    asked: &str,
) -> anyhow::Result<String> {
    if let Some(words) = asked.strip_prefix("$$") {
        return command_alone(alloc, program, disks.stamp, words);
    }
    if let Some(words) = asked.strip_prefix('$') {
        return command(alloc, program, disks, words);
    }
    let rest = asked.strip_prefix('%').unwrap_or(asked);
    let words: Vec<&str> = rest.split_whitespace().collect(alloc)?;
    let Some((verb, rest)) = words.as_slice().split_first() else {
        bail!("nothing is asked");
    };
    obeyed(alloc, disks, verb, rest)
}

/// Does what a verb asks for, and gives its answer.
fn obeyed(alloc: Global, disks: &mut Disks, verb: &str, words: &[&str]) -> anyhow::Result<String> {
    match verb {
        "disks" => disks.make(alloc, words)?,
        "stop" => disks.stop(alloc, words)?,
        "unplug" => disks.unplug(words)?,
        "output" => disks.set_output(words)?,
        "input" => disks.input = Some(input_of(alloc, words)?),
        "stamp" => disks.set_stamp(words)?,
        "vanish" => disks.loses_anchors = true,
        "write" => disks.write(alloc, words)?,
        "sync" => disks.sync(words)?,
        "put" | "set" | "fill" | "number" | "seal" | "turn" => edit_disks(
            alloc, disks, verb, words,
        )?,
        "row" => fill_row(alloc, disks, words)?,
        "is" => return compare(alloc, disks, words),
        "for-linux" => return look_for_linux(alloc, disks, words),
        "calls" => return disks.calls(alloc),
        _ => return vector(alloc, verb, words),
    }
    Ok(String::new(alloc))
}
