//! A status says exactly what its process is, offers and becomes, and so do marks.

ghost use Rattle.role_statuses.specs.FlatLaws.{MarksAreExact};
ghost use Rattle.role_statuses.specs.KeptTests.{KeptIsTested};
ghost use Rattle.role_statuses.specs.Laws.{StatusesAreExact};
ghost use Rattle.role_statuses.specs.ListLaws.{PlacesAreListed};
ghost use Rattle.role_statuses.specs.PlaceLaws.{PlacesAreExact};

/// A law: the process that a status reads as has ended, offers and steps as the status says. It
/// does nothing.
pub fn statuses_are_exact()
    ensures { StatusesAreExact }
{}

/// A law: a static process with a mark for each of its places offers and steps as the process that
/// runs. It does nothing.
pub fn marks_are_exact()
    ensures { MarksAreExact }
{}

/// A law: what a loop over the places of code writes, from the place that does an act on, is the
/// step of the process that runs, and where the act is done other places can act in its place. It
/// does nothing.
pub fn places_are_exact()
    ensures { PlacesAreExact }
{}

/// A law: what each place in the list of those that can act offers is told by its own mark and
/// static process; the places rise, there are no more than the code has, and none where nothing is
/// left to do. It does nothing.
pub fn places_are_listed()
    ensures { PlacesAreListed }
{}

/// A law: marks hang together exactly where a test says so, which is a fact that a value can hold.
/// It does nothing.
pub fn kept_is_tested()
    ensures { KeptIsTested }
{}
