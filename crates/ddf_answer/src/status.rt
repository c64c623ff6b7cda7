//! The exit statuses, one value each. What each one means to a script: docs/SCRIPTS.md.
ghost use Rattle.std.specs.Prelude.{◌≡◌};
ghost use Rattle.ddf_answer.specs.Status.{code_of};

/// How a command ended: the exit statuses of the program.
#[derive(Clone, Copy)]
pub enum Status {
    /// All that was asked for was done.
    Ok = 0,
    /// It is refused.
    Refused = 1,
    /// The words are no command's.
    Words = 2,
    /// A call on a disk failed.
    DiskFault = 3,
    /// Records of the group contradict each other.
    Contradicted = 4,
    /// Memory ran out.
    Memory = 5,
    /// The input failed, or the output failed or took nothing.
    Stream = 6,
    /// Whole pieces of a write were done, and the input ended before the others.
    Cut = 7,
}

impl Status {
    /// The number of the status.
    pub fn code(self) -> u8
        ensures { result ≡ code_of self }
    {
        self as u8
    }
}
