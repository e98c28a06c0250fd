//! How a command ends.

ghost use Rattle.std.specs.Prelude.{◌≡◌};
ghost use Rattle.aioc_top.specs.Status.{code_of};

/// How a command ended.
#[derive(Clone, Copy, PartialEq, Eq)]
pub enum Status {
    /// The command did its work; of a run: the network has ended.
    Done,
    /// The words are no command; nothing was read.
    Usage,
    /// The source failed.
    ReadFault,
    /// The sink failed.
    WriteFault,
    /// The source gave more than 4,194,304 bytes.
    TooLong,
    /// The bytes spell no bundle.
    Syntax,
    /// The bundle may not run.
    Refused,
    /// The run has as many entries as are allowed, and its network has not ended.
    Limit,
    /// A judged trace has an entry that isn't played, or ends too soon.
    No,
    /// Memory ran out.
    Memory,
}

impl Status {
    /// The exit code of the program. It takes no memory.
    pub fn code(&self) -> u8
        ensures { result ≡ code_of self.now }
    {
        match self {
            Status::Done => 0,
            Status::Usage => 2,
            Status::ReadFault => 3,
            Status::WriteFault => 4,
            Status::TooLong => 5,
            Status::Syntax => 6,
            Status::Refused => 7,
            Status::Limit => 8,
            Status::No => 9,
            Status::Memory => 10,
        }
    }
}
