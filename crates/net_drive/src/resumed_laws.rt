//! What the crates below prove, together.

ghost use Rattle.connectedness.specs.Laws.{RolesAtEnds, StampedConnected};
ghost use Rattle.dioc_terms.specs.TermLaws.{CastsAreRoles, MentionsAreRoles, StampedBodies};
ghost use Rattle.net_drive.specs.ResumedLaws.{ResumedNets, ResumedRuns, RunStraysAreExact};
ghost use Rattle.process_steps.specs.Laws.{OffersAreSteps};
ghost use Rattle.projection.specs.Laws.{OutsidersHaveEnded};

/// What holds of terms, of projections and of the steps of processes. It does nothing.
pub(crate) fn known()
    ensures casts { CastsAreRoles }
    ensures offers { OffersAreSteps }
    ensures outsiders { OutsidersHaveEnded }
{
    dioc_terms::casts_are_roles();
    process_steps::offers_are_steps();
    projection::outsiders_have_ended();
}

/// A law: where the entries of an accepted bundle's trace, as many as the limit allows, are a run
/// of its network, the history of the resumed run is one too, which has ended or is as long as
/// allowed, and the headline holds of it. That history is the entries, continued by the schedule
/// with the seed; or the first of them, where they are more than the limit. It does nothing.
pub fn resumed_runs()
    ensures { ResumedRuns }
{
    net_laws::runs_are_sound();
    net_laws::every_run();
}

/// A law: the net that `resume` gives of an accepted bundle has, once `run_seeded` has taken it to
/// its end or to its limit, the history of the resumed run; so has the net that `resume` gives
/// where there are more entries than the limit. Of both the headline holds. It does nothing.
pub fn resumed_nets()
    ensures { ResumedNets }
{
    net_laws::runs_are_sound();
    net_laws::every_run();
}

/// A law: no entry is counted as a stray exactly where the entries are a run of the bundle's
/// network, and the number that is counted is exactly that of the first entry with which they
/// aren't. It does nothing.
pub fn run_strays_are_exact()
    ensures { RunStraysAreExact }
{}
