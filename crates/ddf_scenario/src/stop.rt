//! Stops, as by a power cut, and the starts behind them.
use crate::looking::{first_looks, log_looks, seen, unseen};
use crate::numbers::{number, numbers};
use crate::program::Sight;
use anyhow::bail;
use ddf_bay::MemoryBay;
use std::alloc::Global;

/// The sectors that a scenario may write to its disks.
pub const WRITES: usize = 20_000;

/// The calls of the next command that fail, as a stop told them: counted from that stop on, without those that look for bad block logs.
#[derive(Drop)]
pub struct Failing {
    /// The numbers of calls that fail.
    calls: Vec<u64>,
    /// The number from which on all fail, if there is one.
    after: Option<u64>,
}

/// The disks behind a stop, and a start: `KEEP`, with `after N` or `failing N..` behind it, and then which calls of the next command fail. With `looking N..`
/// these fail at once, and those that look for logs count too.
pub fn stopped(
    alloc: Global,
    bay: MemoryBay,
    words: &[&str],
) -> anyhow::Result<(MemoryBay, Option<Failing>)> {
    let [keep, rest @ ..] = words else {
        bail!("no stop is written so");
    };
    let keep = kept(alloc, keep)?;
    let (looking, failing) = match rest {
        [] => (Vec::new(alloc), None),
        ["after", first] => {
            let after = Some(number(first)?);
            (
                Vec::new(alloc),
                Some(Failing {
                    calls: Vec::new(alloc),
                    after,
                }),
            )
        }
        ["failing", calls @ ..] => {
            let calls = numbers(alloc, calls)?;
            (Vec::new(alloc), Some(Failing { calls, after: None }))
        }
        ["looking", calls @ ..] => (numbers(alloc, calls)?, None),
        _ => bail!("no stop is written so"),
    };
    Ok((bay.crash(keep.as_slice(), looking, None), failing))
}

/// The disks with the calls that fail in the next command, behind those that look for logs, which are tried once to count them. What isn't sure yet is made sure.
pub fn started(
    alloc: Global,
    bay: MemoryBay,
    failing: &Failing,
    sight: Sight,
) -> anyhow::Result<MemoryBay> {
    let made = bay.calls();
    let first = made.saturating_add(first_looks(&bay));
    let bay = seen(alloc, bay, sight)?;
    let looks = log_looks(&bay, made);
    let mut calls = Vec::new(alloc);
    for call in &failing.calls {
        calls.push(place_of(*call, made, first, looks))?;
    }
    let after = match failing.after {
        Some(call) => Some(place_of(call, made, first, looks)),
        None => None,
    };
    let keep = kept(alloc, "all")?;
    Ok(unseen(bay).crash(keep.as_slice(), calls, after))
}

/// The number of a call, counted from the command on, of one that is told from a stop on, of which so many calls were made before the command. The looks for logs
/// follow the first looks.
fn place_of(call: u64, made: u64, first: u64, looks: u64) -> u64 {
    let place = call.saturating_sub(made);
    if call < first {
        place
    } else {
        place.saturating_add(looks)
    }
}

/// Which of the writes that no sync made sure a stop keeps: `none`, `all`, every `second` one from the first on, or as a row of `+` and
/// `-` says, one for each, again and again.
fn kept(alloc: Global, word: &str) -> anyhow::Result<Vec<bool>> {
    let marks = match word {
        "none" => b"-".as_slice(),
        "all" => b"+".as_slice(),
        "second" => b"+-".as_slice(),
        row => row.as_bytes(),
    };
    if marks.is_empty() {
        bail!("a stop keeps something or nothing");
    }
    let mut keep = Vec::new(alloc);
    for place in 0..WRITES {
        match marks[place % marks.len()] {
            b'+' => keep.push(true)?,
            b'-' => keep.push(false)?,
            _ => bail!("no stop keeps `{word}`"),
        }
    }
    Ok(keep)
}
