//! What a call answers, as a scenario writes it.
use std::alloc::{AllocError, Global};

/// So many of a byte, and then as many of each byte behind it up to a last one.
#[derive(Clone, Copy)]
struct Row {
    count: usize,
    first: u8,
    last: u8,
}

/// The text of an answer: what was printed, and `[S]` behind it where the status S isn't 0. Bytes that aren't text are told as how many
/// there are of which.
pub fn text_of(alloc: Global, printed: &[u8], status: u8) -> Result<String, AllocError> {
    let mut text = if is_text(printed) {
        String::from_utf8_lossy(alloc, printed)?
    } else {
        rows_text(alloc, printed)?
    };
    if status != 0 {
        text.push_str(format!(in alloc; "[{status}]\n")?.as_str())?;
    }
    Ok(text)
}

fn is_text(printed: &[u8]) -> bool {
    printed
        .iter()
        .all(|byte| *byte == b'\n' || (b' '..=b'~').contains(byte))
}

fn rows_text(alloc: Global, printed: &[u8]) -> Result<String, AllocError> {
    let mut text = String::new(alloc);
    for row in rows_of(alloc, runs_of(alloc, printed)?.as_slice())? {
        let Row { count, first, last } = row;
        let line = if first == last {
            format!(in alloc; "{count} of {first:02x}\n")?
        } else {
            format!(in alloc; "{count} of each of {first:02x} to {last:02x}\n")?
        };
        text.push_str(line.as_str())?;
    }
    Ok(text)
}

/// The runs of equal bytes.
fn runs_of(alloc: Global, printed: &[u8]) -> Result<Vec<Row>, AllocError> {
    let mut runs: Vec<Row> = Vec::new(alloc);
    for byte in printed {
        match runs.last_mut() {
            Some(run) if run.last == *byte => run.count = run.count.saturating_add(1),
            _ => runs.push(Row {
                count: 1,
                first: *byte,
                last: *byte,
            })?,
        }
    }
    Ok(runs)
}

/// The runs, where those of equal length and of rising bytes are one.
fn rows_of(alloc: Global, runs: &[Row]) -> Result<Vec<Row>, AllocError> {
    let mut rows: Vec<Row> = Vec::new(alloc);
    for run in runs {
        match rows.last_mut() {
            Some(row) if row.count == run.count && row.last.checked_add(1) == Some(run.first) => {
                row.last = run.last;
            }
            _ => rows.push(*run)?,
        }
    }
    Ok(rows)
}
