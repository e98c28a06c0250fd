//! What holds of each bundle that is sound.

ghost use Rattle.net_core.specs.StepLaws.{StepsRun};

/// A law: after any run of a sound bundle a step of a role, or a change of the script, is one more
/// step of the run; and an act that a role offers can be done where it is ready. It does nothing.
pub fn steps_run()
    ensures { StepsRun }
{
    marked_laws::term_laws();
    process_steps::offers_are_steps();
}
