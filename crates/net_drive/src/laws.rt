//! What holds of driven traces. Each function is a law: it does nothing, and whoever calls it knows
//! what its contract says.

ghost use Rattle.drive_laws.specs.Laws.{Readiness, AuxiliaryEnds};
ghost use Rattle.marked_laws.specs.Laws.{Simulation, Settlement};
ghost use Rattle.net_drive.specs.Laws.{DrivenRuns, SameTraces, DrivenExactly, StraysAreExact};
ghost use Rattle.net_drive.specs.Strays.{DriveStraysAreExact};
ghost use Rattle.process_steps.specs.Laws.{OffersAreSteps};

/// What the crates below prove of runs, together.
pub(crate) fn known()
    ensures offered { OffersAreSteps }
    ensures readiness { Readiness }
    ensures auxiliary { AuxiliaryEnds }
    ensures simulation { Simulation }
    ensures settlement { Settlement }
{
    process_steps::offers_are_steps();
    drive_laws::readiness();
    drive_laws::auxiliary_ends();
    marked_laws::simulation();
    marked_laws::settlement();
}

/// A law: each settled trace that the choreography plays is what is visible of its driven history,
/// which is a run of the network. It does nothing.
pub fn driven_runs()
    ensures { DrivenRuns }
{
    marked_laws::term_laws();
    known();
}

/// A law: the visible traces of the network are exactly the settled traces that the choreography
/// plays. It does nothing.
pub fn same_traces()
    ensures { SameTraces }
{
    marked_laws::term_laws();
    known();
}

/// A law: a trace of visible entries is driven exactly where it is settled and the choreography
/// plays it. It does nothing.
pub fn driven_exactly()
    ensures { DrivenExactly }
{
    marked_laws::term_laws();
    known();
}

/// A law: an entry that a run can't do, though it may come or no auxiliary move is left, makes no
/// settled trace that the choreography plays. It does nothing.
pub fn strays_are_exact()
    ensures { StraysAreExact }
{
    marked_laws::term_laws();
    known();
}

/// A law: of a trace of visible entries no stray is counted exactly where it has a driven history,
/// and the number that is counted is exactly that of the first entry that makes a trace which isn't
/// both played and settled. It does nothing.
pub fn drive_strays_are_exact()
    ensures { DriveStraysAreExact }
{
    marked_laws::term_laws();
    known();
}
