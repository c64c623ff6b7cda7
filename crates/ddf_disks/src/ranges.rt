//! What standard error says of bad sectors. docs/COMMANDS.md#what-is-told-on-standard-error
use crate::opened::changes_group;
use ddf_bay::Bay;
use ddf_boxed::Boxed;
use ddf_edge::OneLine;
use ddf_hidden_logs::Honoured;
use ddf_words::Command;

/// Names the disks whose bad sectors are read and written at spare places, before a command that shows the group or may write to it.
pub fn name_ranges<R: Eprint, B: Bay + Drop>(
    rt: &R,
    disks: &Boxed<Honoured<B>>,
    paths: &[String],
    command: &Command,
) {
    if !changes_group(command) && !matches!(command, Command::Show) {
        return;
    }
    for (slot, path) in paths.iter().enumerate() {
        let ranges = disks.inner().ranges(slot);
        if ranges > 0 {
            tell_ranges(rt, slot, path, ranges);
        }
    }
}

/// Says so of one.
fn tell_ranges<R: Eprint>(rt: &R, slot: usize, path: &str, ranges: u16) {
    let path = OneLine(path);
    let _ = if ranges == 1 {
        eprintln!(rt;
            "ddf: slot {slot} ({path}): 1 range of bad sectors is read and written at a spare place, as its log says"
        )
    } else {
        eprintln!(rt;
            "ddf: slot {slot} ({path}): {ranges} ranges of bad sectors are read and written at spare places, as its log says"
        )
    };
}
