//! Numbers, names and streams of bytes that every other crate stands on.
#![tactic(auto)]

mod guid;
mod hex_text;
mod memory_sink;
mod memory_source;
mod no_memory;
mod numbers;
mod seq;
mod sink;
mod source;
mod stamp;
mod std_sink;
mod std_source;

pub use guid::{Guid, GuidKind, new_guid};
pub use hex_text::{Hex8, Hex16, Hex32, ascii_text, put_digits};
pub use memory_sink::MemorySink;
pub use memory_source::MemorySource;
pub use no_memory::NoMemory;
pub use numbers::{be16, be32, be64, put16, put32, put64};
pub use seq::Seq;
pub use sink::{Sink, SinkFault, write_all};
pub use source::{Source, SourceFault, fill_from};
pub use stamp::Stamp;
pub use std_sink::StdSink;
pub use std_source::StdSource;

/// A sector: 512 bytes, the unit in which disks are read and written. It is written whole or not at all.
pub type Sector = [u8; 512];

/// A call on the outside failed. Its count of faults says so too.
#[derive(Clone, Copy, PartialEq, Eq)]
pub struct Failed;
