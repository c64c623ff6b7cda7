//! Where blocks lie on the members of an element.
use crate::numbers::{byte, number};
use anyhow::bail;
use ddf_primary::{Shape, ShapeFault};
use std::alloc::Global;

/// The numbers of an element.
#[derive(Drop)]
struct Element {
    level: u8,
    qualifier: u8,
    members: u16,
    /// The sectors of a strip.
    strip: u64,
    /// The blocks of each member.
    blocks: u64,
}

/// Draws an element, `LEVEL QUALIFIER MEMBERS STRIP BLOCKS` with both codes in hexadecimal: what it holds, and a row for each sector of
/// its members, with the numbers of the blocks there, `P` for parity and `-` for nothing. Or why there is no such element.
pub fn draw_element(alloc: Global, words: &[&str]) -> anyhow::Result<String> {
    let element = element_of(alloc, words)?;
    let shape = match shape_of(&element)? {
        Ok(shape) => shape,
        Err(fault) => return fault_text(alloc, fault),
    };
    let mut text = format!(in alloc;
        "capacity {} unit {} rows {}\n",
        shape.capacity(),
        shape.unit(),
        shape.rows()
    )?;
    for sector in 0..element.blocks.min(64) {
        let line = sector_text(alloc, &element, &shape, sector)?;
        text.push_str(line.as_str())?;
    }
    Ok(text)
}

/// Tells where blocks of an element lie: `LEVEL QUALIFIER MEMBERS STRIP BLOCKS`, and the numbers of the blocks behind them.
pub fn place_blocks(alloc: Global, words: &[&str]) -> anyhow::Result<String> {
    let (element, asked) = match words.split_at_checked(5) {
        Some(both) => both,
        None => bail!("no element is written so"),
    };
    let Ok(shape) = shape_of(&element_of(alloc, element)?)? else {
        bail!("there is no such element");
    };
    let mut text = String::new(alloc);
    for word in asked {
        let block = number(word)?;
        if block >= shape.capacity() {
            bail!("there is no block {block}");
        }
        let cell = shape.place(block);
        let line = format!(in alloc;
            "{block}: member {} sector {} row {}\n",
            cell.member, cell.sector, cell.row
        )?;
        text.push_str(line.as_str())?;
    }
    Ok(text)
}

fn element_of(alloc: Global, words: &[&str]) -> anyhow::Result<Element> {
    let [level, qualifier, members, strip, blocks] = words else {
        bail!("no element is written so");
    };
    Ok(Element {
        level: byte(alloc, level)?,
        qualifier: byte(alloc, qualifier)?,
        members: (number(members)? % 65_536) as u16,
        strip: number(strip)?,
        blocks: number(blocks)?,
    })
}

fn shape_of(element: &Element) -> anyhow::Result<Result<Shape, ShapeFault>> {
    if element.strip == 0 || element.strip > 1 << 31 {
        bail!("no strip has {} sectors", element.strip);
    }
    Ok(Shape::new(
        element.level,
        element.qualifier,
        element.members,
        element.strip,
        element.blocks,
    ))
}

fn fault_text(alloc: Global, fault: ShapeFault) -> anyhow::Result<String> {
    let text = match fault {
        ShapeFault::Level(code) => format!(in alloc; "level {code:02x}\n")?,
        ShapeFault::Qualifier(code) => format!(in alloc; "qualifier {code:02x}\n")?,
        ShapeFault::MemberCount(count) => format!(in alloc; "members {count}\n")?,
        ShapeFault::Blocks(count) => format!(in alloc; "blocks {count}\n")?,
    };
    Ok(text)
}

/// What the members hold at a sector.
fn sector_text(
    alloc: Global,
    element: &Element,
    shape: &Shape,
    sector: u64,
) -> anyhow::Result<String> {
    let parity = parity_at(shape, sector.checked_div(element.strip));
    let mut text = String::new(alloc);
    for member in 0..element.members {
        if member > 0 {
            text.push(' ')?;
        }
        match shape.block_at(member, sector) {
            Some(block) => text.push_str(format!(in alloc; "{block}")?.as_str())?,
            None if parity == Some(member) => text.push('P')?,
            None => text.push('-')?,
        }
    }
    text.push('\n')?;
    Ok(text)
}

/// The member with the parity of a row, if the row is there and has any.
fn parity_at(shape: &Shape, row: Option<u64>) -> Option<u16> {
    match row {
        Some(row) if row < shape.rows() => shape.parity_of(row),
        _ => None,
    }
}
