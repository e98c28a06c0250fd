//! What a process offers is what it can do.

ghost use Rattle.process_steps.specs.Laws.{OffersAreSteps, StepsShowTheirActs};

/// A law: with what fits an act from outside, a process does the act exactly where it offers it; it
/// does no others; and an ended process does nothing. It does nothing itself.
pub fn offers_are_steps()
    ensures { OffersAreSteps }
{}

/// A law: the entry of a step shows the act that was done. It does nothing.
pub fn steps_show_their_acts()
    ensures { StepsShowTheirActs }
{}
