//! What holds of made bundles.

ghost use Rattle.load_gen.specs.Laws.{MadeAreAccepted};

/// A law: each made bundle is accepted. It does nothing.
pub fn made_are_accepted()
    ensures { MadeAreAccepted }
{
    connectedness::gaps_are_found();
}
