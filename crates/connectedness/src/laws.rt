//! What holds of the roles that begin and end a choreography, of gaps, and of stamped bodies.

ghost use Rattle.connectedness.specs.Laws.{RolesAtEnds, GapsAreFound, StampedConnected};

/// A law: whether a role begins a choreography, and whether it is in each group that ends it, by
/// recursion over the choreography; and so which sequences are linked. It does nothing.
pub fn roles_at_ends()
    ensures { RolesAtEnds }
{
    dioc_terms::mentions_are_roles();
}

/// A law: a choreography is connected exactly where no gap is found in it, for a cast with all its
/// roles. It does nothing.
pub fn gaps_are_found()
    ensures { GapsAreFound }
{}

/// A law: a body that is stamped as an update has the same starters and groups, and is connected
/// where it was. It does nothing.
pub fn stamped_connected()
    ensures { StampedConnected }
{
    dioc_terms::stamped_bodies();
}
