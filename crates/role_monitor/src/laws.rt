//! What the monitors of all roles together know of a trace. Each function is a law: it does
//! nothing, and whoever calls it knows what its contract says.

ghost use Rattle.role_monitor.specs.Laws.{KeptTracesAreRuns, RunsNeverDeviate};

/// A law: no alarm is false. In no run of the network of an accepted bundle does a role deviate.
/// It does nothing.
pub fn runs_never_deviate()
    ensures { RunsNeverDeviate }
{
    net_laws::accepted_is_sound();
    marked_laws::unique_keys();
    marked_laws::runs_extend();
}

/// A law: no deed goes unseen. What no monitor of any role of the cast refuses is a run of the
/// network of an accepted bundle, where each entry is a change or of a role of the cast, and each
/// change is the script's next and stands after its stated number of visible entries. It does
/// nothing.
pub fn kept_traces_are_runs()
    ensures { KeptTracesAreRuns }
{
    net_laws::accepted_is_sound();
    marked_laws::unique_keys();
    marked_laws::runs_extend();
}
