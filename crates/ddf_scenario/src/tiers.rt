//! Where blocks lie in the elements of an array.
ghost use Rattle.std.specs.Prelude.{◌≤◌, IsTrue, All};

use crate::numbers::{byte, number};
use anyhow::bail;
use ddf_secondary::{ElementSize, Tiers, TiersFault};
use std::alloc::Global;

/// Tells how many blocks an array holds, and where some of them lie: `LEVEL SIZE,..`, the code of the level in hexadecimal and a size as
/// `CAPACITY/UNIT/ROWS`, and the numbers of the blocks behind them. `-` stands for no elements. Or why there is no such array.
pub fn place_in_elements(
    alloc: Global,
    level: &str,
    sizes: &str,
    asked: &[&str],
) -> anyhow::Result<String> {
    let sizes = sizes_of(alloc, sizes)?;
    if !are_small(sizes.as_slice()) {
        bail!("there are too large elements");
    }
    let tiers = match Tiers::new(byte(alloc, level)?, sizes.as_slice()) {
        Ok(tiers) => tiers,
        Err(fault) => return fault_text(alloc, fault),
    };
    let mut text = format!(in alloc; "capacity {}\n", tiers.capacity())?;
    for word in asked {
        let line = spot_text(alloc, &tiers, number(word)?)?;
        text.push_str(line.as_str())?;
    }
    Ok(text)
}

/// Where a block lies, if it is the block that lies there.
fn spot_text(alloc: Global, tiers: &Tiers, block: u64) -> anyhow::Result<String> {
    if block >= tiers.capacity() {
        bail!("there is no block {block}");
    }
    let spot = tiers.locate(block);
    if tiers.block_at(spot) != Some(block) {
        bail!("another block lies where block {block} does");
    }
    Ok(format!(in alloc; "{block}: element {} block {}\n", spot.element, spot.block)?)
}

fn sizes_of(alloc: Global, text: &str) -> anyhow::Result<Vec<ElementSize>> {
    let mut sizes = Vec::new(alloc);
    if text != "-" {
        for size in text.split(',') {
            sizes.push(size_of(alloc, size)?)?;
        }
    }
    Ok(sizes)
}

fn size_of(alloc: Global, text: &str) -> anyhow::Result<ElementSize> {
    let words: Vec<&str> = text.split('/').collect(alloc)?;
    let [capacity, unit, rows] = words.as_slice() else {
        bail!("`{text}` is no size");
    };
    Ok(ElementSize {
        capacity: number(capacity)?,
        unit: number(unit)?,
        rows: number(rows)?,
    })
}

fn are_small(sizes: &[ElementSize]) -> bool
    ensures { IsTrue result → All (λ s. (s.capacity ≤ 99) × (s.unit ≤ 99) × (s.rows ≤ 99)) sizes.now }
{
    sizes
        .iter()
        .all(|s| s.capacity <= 99 && s.unit <= 99 && s.rows <= 99)
}

fn fault_text(alloc: Global, fault: TiersFault) -> anyhow::Result<String> {
    let text = match fault {
        TiersFault::Level(code) => format!(in alloc; "level {code:02x}\n")?,
        TiersFault::Count(count) => format!(in alloc; "elements {count}\n")?,
        TiersFault::Mixed => format!(in alloc; "mixed\n")?,
    };
    Ok(text)
}
