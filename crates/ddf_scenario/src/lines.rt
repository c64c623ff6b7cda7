//! The lines of a scenario, with those of parts where these are played.
use anyhow::bail;
use std::alloc::Global;

/// How deep parts may play one another.
const DEPTH: usize = 3;

/// A line that is played, and the number of the line of the scenario that asks for it, from 1 on.
#[derive(Clone, Copy)]
pub struct Line<'a> {
    pub number: usize,
    pub text: &'a str,
}

/// Lines that have a name, from `% part NAME` to `% end`, and are played where `% play NAME` stands.
#[derive(Drop)]
struct Part<'a> {
    name: &'a str,
    lines: Vec<&'a str>,
}

/// The lines that are played, in order. Shared texts are those of the files that a line `% from FILE` names, of which the parts alone count.
pub fn lines_of<'a>(
    alloc: Global,
    shared: &'a [String],
    text: &'a str,
) -> anyhow::Result<Vec<Line<'a>>> {
    let mut parts = Vec::new(alloc);
    for text in shared {
        take_parts(alloc, &mut parts, text.as_str())?;
    }
    let mut lines = take_parts(alloc, &mut parts, text)?;
    for _ in 0..DEPTH {
        lines = with_parts(alloc, lines.as_slice(), parts.as_slice())?;
    }
    Ok(lines)
}

/// Adds the parts of a text, and gives its other lines.
fn take_parts<'a>(
    alloc: Global,
    parts: &mut Vec<Part<'a>>,
    text: &'a str,
) -> anyhow::Result<Vec<Line<'a>>> {
    let mut lines = Vec::new(alloc);
    let mut is_open = false;
    for (place, text) in text.lines().enumerate() {
        let number = place.saturating_add(1);
        if let Some(name) = text.strip_prefix("% part ") {
            let lines = Vec::new(alloc);
            parts.push(Part { name, lines })?;
            is_open = true;
        } else if is_open {
            is_open = text != "% end";
            if let Some(part) = parts.last_mut() {
                part.lines.push(text)?;
            }
        } else if !text.starts_with("% from ") {
            lines.push(Line { number, text })?;
        }
    }
    if is_open {
        bail!("the last part has no end");
    }
    Ok(lines)
}

/// Lines with those of its part in the place of each `% play NAME`.
fn with_parts<'a>(
    alloc: Global,
    lines: &[Line<'a>],
    parts: &[Part<'a>],
) -> anyhow::Result<Vec<Line<'a>>> {
    let mut played = Vec::new(alloc);
    for line in lines {
        match line.text.strip_prefix("% play ") {
            Some(name) => play_part(&mut played, parts, line.number, name)?,
            None => played.push(*line)?,
        }
    }
    Ok(played)
}

/// Adds the lines of the part of this name, without the last, which is its `% end`.
fn play_part<'a>(
    played: &mut Vec<Line<'a>>,
    parts: &[Part<'a>],
    number: usize,
    name: &str,
) -> anyhow::Result<()> {
    for part in parts {
        if part.name == name {
            let count = part.lines.len().saturating_sub(1);
            for text in &part.lines.as_slice()[..count] {
                played.push(Line {
                    number,
                    text: *text,
                })?;
            }
            return Ok(());
        }
    }
    bail!("no part is named `{name}`")
}
