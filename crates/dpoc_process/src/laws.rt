//! What is made ready of an act is its step.

ghost use Rattle.dpoc_process.specs.RoleLaws.{AdvancesAreSteps, PreparedIsDone};

/// A law: the part of a process that does an act, changed by what was made ready of it, and its
/// store, written so, are what the step gives. It does nothing itself.
pub fn advances_are_steps()
    ensures { AdvancesAreSteps }
{}

/// A law: the entry and the message that are shown before an act is done are those of its step. It
/// does nothing.
pub fn prepared_is_done()
    ensures { PreparedIsDone }
{}
