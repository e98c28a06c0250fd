//! What holds of mended choreographies and of mended bundles. Each function is a law: it does
//! nothing, and whoever calls it knows what its contract says.

ghost use Rattle.mend.specs.Laws.{MendedConnected, StaysAsItIs, DropsToInput, MendedAccepted, MendedPlaysWithout};
ghost use Rattle.mend.specs.Traces.{PlaysWithout};

/// A law: a mended choreography is connected and has the same roles, and no role sends to itself
/// in it unless one did before. It does nothing.
pub fn mended_connected()
    ensures { MendedConnected }
{
    dioc_terms::mentions_are_roles();
    connectedness::roles_at_ends();
}

/// A law: closing leaves a part alone exactly where each of its endings has the role, and opening
/// exactly where nobody else begins it. It does nothing.
pub fn stays_as_it_is()
    ensures { StaysAsItIs }
{
    connectedness::roles_at_ends();
}

/// A law: where no name of a choreography begins with `sq_`, dropping what was added and marking
/// again gives it back. It does nothing.
pub fn drops_to_input()
    ensures { DropsToInput }
{}

/// A law: a trace that a mended bundle plays, without the entries of added messages and with each
/// index carried back, is played by the bundle itself with its changes at once. It does nothing.
pub fn plays_without()
    ensures { PlaysWithout }
{
    dioc_terms::mentions_are_roles();
    dioc_terms::casts_are_roles();
    dioc_terms::stamped_bodies();
    connectedness::roles_at_ends();
    mended_connected();
}

/// A law: a mended bundle is accepted, where the bundle has no refusal. It does nothing.
pub fn mended_accepted()
    ensures { MendedAccepted }
{
    dioc_terms::mentions_are_roles();
    dioc_terms::casts_are_roles();
    connectedness::gaps_are_found();
    mended_connected();
}

/// A law: where a bundle has no refusal, it plays what the mended bundle plays, with its changes at
/// once, without the entries of added messages and with each index carried back. It does nothing.
pub fn mended_plays_without()
    ensures { MendedPlaysWithout }
{
    plays_without();
}
