//! What holds of every picture, as contracts of functions that do nothing.

ghost use Rattle.trace_picture.specs.Laws.{MarkedIsHarmless};

/// A law: whatever bytes a name or a text has, what an SVG has of them closes no text and opens no
/// tag.
pub fn marked_is_harmless()
    ensures { MarkedIsHarmless }
{}
