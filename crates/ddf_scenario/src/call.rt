//! The call of the program over the disks of a scenario.
use crate::disks::{ALL, Disks, Output, new_bay};
use crate::input::empty;
use crate::looking::{log_looks, seen, unseen};
use crate::program::{Program, Seen, Sight};
use crate::run::{sync_slot, write_sectors};
use crate::told::text_of;
use crate::words::{push_words, words_over};
use anyhow::bail;
use ddf_bay::Bay;
use ddf_bytes::{MemorySink, MemorySource, Stamp};
use std::alloc::Global;

/// The sizes of small disks, for words alone.
const SMALL: [u64; 64] = [9; 64];

/// Small blank disks have no logs.
const PLAIN: Sight = Sight {
    founds: None,
    by_logs: false,
};

/// The answer of a command over all disks.
pub fn command<P: Program>(
    alloc: Global,
    program: &P,
    disks: &mut Disks,
    text: &str,
) -> anyhow::Result<String> {
    let slots = disks.bay()?.slots();
    let words = words_over(alloc, slots, text)?;
    let sight = program.sight(alloc, words.as_slice());
    let inner = disks.take_for(alloc, sight)?;
    let before = inner.calls();
    let mut bay = seen(alloc, inner, sight)?;
    disks.pass_over(log_looks(&bay, before));
    if disks.loses_anchors {
        lose_anchors(&mut bay)?;
        disks.loses_anchors = false;
    }
    let mut input = match disks.input.take() {
        Some(input) => input,
        None => empty(alloc),
    };
    let answer = call(
        alloc,
        program,
        &mut bay,
        words.as_slice(),
        disks.stamp,
        &mut input,
        disks.output,
    )?;
    disks.bay = Some(unseen(bay));
    Ok(answer)
}

/// The answer of a call with all its words, over as many small blank disks as they name, to which nothing can be written.
pub fn command_alone<P: Program>(
    alloc: Global,
    program: &P,
    stamp: Stamp,
    text: &str,
) -> anyhow::Result<String> {
    let mut words = Vec::new(alloc);
    push_words(alloc, &mut words, text)?;
    let Some(sizes) = SMALL.get(..program.disks(words.as_slice())) else {
        bail!("there are too many disks");
    };
    let mut bay = seen(alloc, new_bay(alloc, sizes, 0)?, PLAIN)?;
    call(
        alloc,
        program,
        &mut bay,
        words.as_slice(),
        stamp,
        &mut empty(alloc),
        ALL,
    )
}

fn call<P: Program>(
    alloc: Global,
    program: &P,
    bay: &mut Seen,
    words: &[String],
    stamp: Stamp,
    input: &mut MemorySource,
    output: Output,
) -> anyhow::Result<String> {
    let mut failing = Vec::new(alloc);
    if let Some(call) = output.failing {
        failing.push(call)?;
    }
    let Ok(mut sink) = MemorySink::new(alloc, output.room, failing) else {
        bail!("memory ran out");
    };
    let Some(status) = program.call(alloc, words, bay, input, &mut sink, stamp) else {
        bail!("the words name another number of disks");
    };
    Ok(text_of(alloc, sink.bytes(), status)?)
}

/// Writes zeros over the last sector of each disk, through the bay as it was first seen.
fn lose_anchors(bay: &mut Seen) -> anyhow::Result<()> {
    for slot in 0..bay.slots() {
        lose_anchor(bay, slot)?;
    }
    Ok(())
}

fn lose_anchor(bay: &mut Seen, slot: usize) -> anyhow::Result<()> {
    if slot < bay.slots() {
        let last = bay.size(slot).saturating_sub(1);
        write_sectors(bay, slot, last, &[[0; 512]])?;
    }
    sync_slot(bay, slot)
}
