//! What `accept` puts an end to: the mark, which alone tells that copies or parity may be wrong. docs/COMMANDS.md#accept
use crate::ending::group_over;
use ddf_arrays_left::{keeps_parity, lacks_one};
use ddf_bay::Bay;
use ddf_bytes::{Guid, NoMemory};
use ddf_config::{Array, Config};
use ddf_name::NameText;
use ddf_request::named_array;

/// Names on standard error the array whose mark `accept` takes away, and what may be lost by it. Whether it is marked.
pub fn name_accepting<R, B: Bay>(
    rt: &R,
    bay: &mut B,
    named: Option<Guid>,
    word: &[u8],
) -> Result<bool, NoMemory>
where
    R: Eprint + AllocGlobal,
{
    match group_over(rt, bay, named)? {
        Some((_, config)) => Ok(name_mark_taken(rt, &config, word)),
        None => Ok(false),
    }
}

/// Names the array whose mark is taken away, and what may be lost by it. Whether it is marked.
fn name_mark_taken<R: Eprint>(rt: &R, config: &Config, word: &[u8]) -> bool {
    let Some((_, array)) = named_array(&config.arrays, word) else {
        return false;
    };
    if !array.is_marked() {
        return false;
    }
    let name = NameText(&array.name);
    let what = lost_with_mark(config, array);
    let _ = eprintln!(rt;
        "ddf: array {name} is marked, and accept compares nothing: from then on nothing tells that {what}"
    );
    true
}

/// What nothing tells any more once the mark of an array is gone.
fn lost_with_mark(config: &Config, array: &Array) -> &'static str {
    match (keeps_parity(array), lacks_one(config, array)) {
        (true, true) => {
            "its parity may be wrong, and the blocks of the disk that is away are taken from it: where blocks were being written these may be bytes that nobody wrote"
        }
        (true, false) => {
            "its parity may be wrong: where it is, the blocks of a disk that is lost later are bytes that nobody wrote"
        }
        (false, _) => {
            "its copies may differ: where they do, a block is what the first copy that is there has, be it old or new"
        }
    }
}
