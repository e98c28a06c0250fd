//! What `==` says.

ghost use Rattle.dioc_terms.specs.EqualityLaws.{EqualityDecides};

/// A law: each test of equality, of names, roles, indices, tags, keys, values, notes, entries and
/// acts, decides whether the two are the same. It does nothing.
pub fn equality_decides()
    ensures { EqualityDecides }
{}
