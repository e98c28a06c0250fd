//! Whom the leader of a scope tells its update.

ghost use Rattle.scope_leader.specs.Leaders.{LeadersTell};
ghost use Rattle.scope_leader.specs.Plans.{ToldAreTheOthers};

/// A law: the roles that a plan tells are the others of the scope whose head it was given, in the
/// same order. It does nothing.
pub fn told_are_the_others()
    ensures { ToldAreTheOthers }
{}

/// A law: in every process of a run a role that begins a scope is the scope's leader, and tells
/// those whom a plan tells. It is so of projections, and steps keep it. It does nothing.
pub fn leaders_tell()
    ensures { LeadersTell }
{}
