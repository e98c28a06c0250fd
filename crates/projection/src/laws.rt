//! Who has something to do in a projection.

ghost use Rattle.projection.specs.Laws.{OutsidersHaveEnded};

/// A law: a role's projection has ended from the start exactly where the choreography doesn't name
/// the role. It does nothing.
pub fn outsiders_have_ended()
    ensures { OutsidersHaveEnded }
{}
