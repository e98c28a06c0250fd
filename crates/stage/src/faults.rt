//! Why a stage was stopped, and why a commit is refused.

use thiserror::Error;

/// Why a stage was stopped.
#[derive(Clone, Copy, Debug, PartialEq, Eq)]
pub enum Why {
    /// The role at that place of the cast found no memory.
    Memory(u32),
    /// The history has as many entries as it may, and its network has not ended.
    Limit,
}

/// Why a commit is refused. The first that holds is answered, in the order of the variants here.
#[derive(Clone, Copy, Debug, PartialEq, Eq, Error)]
pub enum CommitFault {
    /// The stage was stopped.
    #[error("the stage was stopped")]
    Stopped(Why),
    /// Every role has finished. Changes alone are refused for this.
    #[error("every role has finished")]
    Ended,
    /// The script has no change more. Changes alone are refused for this.
    #[error("the script has no change more")]
    NoMore,
    /// The history has as many entries as it may.
    #[error("the history is full")]
    Full,
    /// Of a role: the script's next change comes first, or the message isn't pending. Of a change:
    /// it isn't due yet.
    #[error("not yet")]
    NotYet,
    /// Memory ran out.
    #[error("out of memory")]
    Memory,
}
