//! What an accepted bundle is, in the words of the language. A law does nothing, and whoever calls
//! it knows what its contract says.

ghost use Rattle.rule_checks.specs.Laws.{AcceptedMayRun};

/// A law: a bundle is accepted exactly where it may run, said without an order of tests. It does
/// nothing.
pub fn accepted_may_run()
    ensures { AcceptedMayRun }
{
    dioc_terms::mentions_are_roles();
    dioc_terms::casts_are_roles();
    connectedness::gaps_are_found();
}
