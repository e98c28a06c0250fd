//! What the choreography may do, the roles can do too. Each function is a law: it does nothing, and
//! whoever calls it knows what its contract says.

ghost use Rattle.drive_laws.specs.Laws.{Readiness, AuxiliaryEnds};

/// A law: where a run has left no auxiliary move, each entry that the choreography plays next and
/// that is settled can be done by the network. It does nothing.
pub fn readiness()
    ensures { Readiness }
{
    marked_laws::term_laws();
}

/// A law: auxiliary entries come to an end. A run has at most six of them for each visible entry
/// and each role of the cast. It does nothing.
pub fn auxiliary_ends()
    ensures { AuxiliaryEnds }
{
    marked_laws::term_laws();
}
