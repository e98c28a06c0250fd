//! What holds of the roles of a choreography, of its cast, and of a stamped body.

ghost use Rattle.dioc_terms.specs.TermLaws.{MentionsAreRoles, CastsAreRoles, StampedBodies};

/// A law: a choreography names exactly the roles that its text mentions. It does nothing.
pub fn mentions_are_roles()
    ensures { MentionsAreRoles }
{}

/// A law: the cast of a choreography has exactly its roles, each once. It does nothing.
pub fn casts_are_roles()
    ensures { CastsAreRoles }
{}

/// A law: the body of a rule, stamped as an update, keeps its roles, the number of its constructs,
/// and whether a role sends to itself in it. It does nothing.
pub fn stamped_bodies()
    ensures { StampedBodies }
{}
