//! What holds of every run of the network of a sound bundle, under every interleaving and every
//! live change. Each function is a law: it does nothing, and whoever calls it knows what its
//! contract says.

ghost use Rattle.connectedness.specs.Laws.{RolesAtEnds, StampedConnected};
ghost use Rattle.dioc_terms.specs.TermLaws.{MentionsAreRoles, CastsAreRoles, StampedBodies};
ghost use Rattle.marked_laws.specs.Laws.{Simulation, Settlement, UniqueKeys, Progress, NothingLeft};
ghost use Rattle.marked_laws.specs.Offers.{DistinctOffers};
ghost use Rattle.marked_laws.specs.RunLaws.{Extensions};
ghost use Rattle.marked_laws.specs.Versions.{RunsReadNoVersion};

/// The laws of terms and of connectedness that hold of each sound bundle, together. It does
/// nothing.
pub fn term_laws()
    ensures mentions { MentionsAreRoles }
    ensures casts { CastsAreRoles }
    ensures bodies { StampedBodies }
    ensures ends { RolesAtEnds }
    ensures stamps { StampedConnected }
{
    dioc_terms::mentions_are_roles();
    dioc_terms::casts_are_roles();
    dioc_terms::stamped_bodies();
    connectedness::roles_at_ends();
    connectedness::stamped_connected();
}

/// A law: what is visible of a run is played by the choreography itself, with equal stores, book,
/// updates and changes, and the choreography has ended where the network has. It does nothing.
pub fn simulation()
    ensures { Simulation }
{
    term_laws();
}

/// A law: in that play nobody passes the end of a scope or of a loop's turn before all its roles
/// have arrived there. It does nothing.
pub fn settlement()
    ensures { Settlement }
{
    term_laws();
}

/// A law: no two pending messages have one key, and no two ready receives of one role have one key.
/// It does nothing.
pub fn unique_keys()
    ensures { UniqueKeys }
{
    term_laws();
}

/// A law: in every network of a run no act stands twice in what a role offers. It does nothing.
pub fn distinct_offers()
    ensures { DistinctOffers }
{
    term_laws();
}

/// A law: a network that has not ended has a step of a role. It does nothing.
pub fn progress()
    ensures { Progress }
{
    term_laws();
}

/// A law: where every process has ended, no message is pending. It does nothing.
pub fn nothing_left()
    ensures { NothingLeft }
{
    term_laws();
}

/// A law: a run of two histories, one after the other, is a run of the second after one of the
/// first, and a prefix of a run is a run. It does nothing.
pub fn runs_extend()
    ensures { Extensions }
{}

/// A law: what a bundle's choreography plays and what its network runs doesn't depend on its
/// version. It does nothing.
pub fn runs_read_no_version()
    ensures { RunsReadNoVersion }
{}
