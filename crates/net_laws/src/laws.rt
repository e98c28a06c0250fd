//! What holds of each bundle that is accepted. Each function is a law: it does nothing, and whoever
//! calls it knows what its contract says.

ghost use Rattle.net_laws.specs.Headline.{EveryRun};
ghost use Rattle.net_laws.specs.Laws.{AcceptedIsSound, MovesAreSteps, RunsAreSound, SchedulesArePrompt, SchedulesReadNoVersion};

/// A law: a bundle that is accepted is sound, whatever its choreography and its rules. It does
/// nothing.
pub fn accepted_is_sound()
    ensures { AcceptedIsSound }
{
    rule_checks::accepted_may_run();
}

/// A law: after any run of an accepted bundle each move of its network can be done, and there is
/// one where the network has not ended. It does nothing.
pub fn moves_are_steps()
    ensures { MovesAreSteps }
{
    marked_laws::term_laws();
    accepted_is_sound();
    marked_laws::progress();
    process_steps::offers_are_steps();
}

/// A law: what a schedule, with a seed or without, makes of a run of an accepted bundle is again a
/// run, that the choreography explains; it has ended, or it has as many entries as it may. It does
/// nothing.
pub fn runs_are_sound()
    ensures { RunsAreSound }
{
    marked_laws::term_laws();
    accepted_is_sound();
    marked_laws::progress();
    marked_laws::simulation();
    process_steps::offers_are_steps();
}

/// A law, the headline: every run of the network of an accepted bundle, under every interleaving
/// and every live change, is played by the choreography itself with the same changes at the same
/// places; no two pending messages can be confused; and nothing gets stuck. It does nothing.
pub fn every_run()
    ensures { EveryRun }
{
    accepted_is_sound();
    marked_laws::simulation();
    marked_laws::settlement();
    marked_laws::unique_keys();
    marked_laws::progress();
    marked_laws::nothing_left();
    marked_laws::runs_extend();
}

/// A law: in the run of a schedule without a seed no entry of a role stands where the script's next
/// change is due, whatever the bundle. It does nothing.
pub fn schedules_are_prompt()
    ensures { SchedulesArePrompt }
{}

/// A law: neither what a schedule makes of a bundle nor its first refusal depends on its version.
/// It does nothing.
pub fn schedules_read_no_version()
    ensures { SchedulesReadNoVersion }
{}
