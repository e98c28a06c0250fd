//! What holds of plays, of the first entry that strays, and of settled traces. Each function is a
//! law: it does nothing, and whoever calls it knows what its contract says.

ghost use Rattle.global_steps.specs.Laws.{PlaysGoOn, StraysAreFound, SettledGoesOn};

/// A law: a play goes on from the state after the entries before, each entry counts, and a
/// choreography that has ended plays no entry of a role. It does nothing.
pub fn plays_go_on()
    ensures { PlaysGoOn }
{}

/// A law: none of some entries strays exactly where the visible ones are played, and the one that
/// strays is the first that isn't played. It does nothing.
pub fn strays_are_found()
    ensures { StraysAreFound }
{}

/// A law: the first entries of a settled trace are settled, and more settled entries after them
/// make a settled trace. It does nothing.
pub fn settled_goes_on()
    ensures { SettledGoesOn }
{}
