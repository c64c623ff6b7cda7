//! What a command prints at its end.
ghost use Rattle.std.specs.Prelude.{◌≡◌, ◌<◌, ◌++◌, codes, IfSome};
ghost use Rattle.ddf_bytes.specs.Streams.{SinkRose};
ghost use Rattle.ddf_answer.specs.Call.{answer_of};
ghost use Rattle.ddf_answer.specs.Status.{code_of};
ghost use Rattle.ddf_answer.specs.Tells.{ClosesWith, EndsWith};

use crate::status::Status;
use ddf_bytes::{Sink, write_all};
use std::alloc::Global;
use std::fmt;

/// Prints a text, with which a command ends with this status. It takes no memory.
pub fn tell<K: Sink>(sink: &mut K, text: &[u8], status: Status) -> Status
    requires { code_of status < 5 }
    ensures ends { ClosesWith (code_of status) text.now (answer_of K.tells (K.output sink.old) (K.output sink.new) (code_of result)) }
    ensures stream { code_of result ≡ 6 → SinkRose (K.output sink.old) (K.output sink.new) }
{
    match write_all(sink, text) {
        Ok(()) => status,
        Err(_) => Status::Stream,
    }
}

/// Prints a line, with which a command ends with this status. It takes memory.
pub fn tell_line<T: fmt::Display, K: Sink>(
    alloc: Global,
    text: &T,
    status: Status,
    sink: &mut K,
) -> Status
    requires { code_of status < 5 }
    ensures ends { IfSome (T.output text.now) (λ line. EndsWith (code_of status) (line ++ codes "\n") (answer_of K.tells (K.output sink.old) (K.output sink.new) (code_of result))) }
    ensures stream { code_of result ≡ 6 → SinkRose (K.output sink.old) (K.output sink.new) }
{
    match format!(in alloc; "{text}\n") {
        Ok(line) => tell(sink, line.as_bytes(), status),
        Err(_) => Status::Memory,
    }
}
