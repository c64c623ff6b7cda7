//! The program whose scenarios these are.
use ddf_batch::serve;
use ddf_bay::Bay;
use ddf_bytes::{MemorySink, MemorySource, Stamp};
use ddf_command::{Command, DiskStyle, asked, slot_paths};
use ddf_disk_commands::layout_for;
use ddf_scenario::{Program, Seen, Sight};
use std::alloc::Global;

/// The call that the program `ddf` makes.
pub struct Ddf;

impl Program for Ddf {
    fn disks(&self, words: &[String]) -> usize {
        slot_paths(words).len()
    }

    fn sight(&self, alloc: Global, words: &[String]) -> Sight {
        let mut sight = Sight {
            founds: None,
            by_logs: true,
        };
        let Ok(asked) = asked(alloc, words) else {
            return sight;
        };
        match asked.command {
            Command::Label {
                style: DiskStyle::Linux,
                large,
                slots,
            } => {
                let disks = self.disks(words);
                sight.founds = Some(layout_for(large, slots.items(), disks));
            }
            Command::Examine => sight.by_logs = false,
            _ => {}
        }
        sight
    }

    fn call(
        &self,
        alloc: Global,
        words: &[String],
        bay: &mut Seen,
        input: &mut MemorySource,
        sink: &mut MemorySink,
        stamp: Stamp,
    ) -> Option<u8> {
        if bay.slots() == slot_paths(words).len() {
            Some(serve(alloc, words, bay, input, sink, stamp))
        } else {
            None
        }
    }
}
