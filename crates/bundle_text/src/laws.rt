//! What holds of every text of a bundle, and of the first token that may not stand in a text.

ghost use Rattle.bundle_text.specs.Laws.{OneBundle, SpelledIsFormed, WrittenIsRead, WrittenIsSpelled, ReadIsWritten, OneListOfSessions, BundlesGoThrough, SessionsGoThrough, NoBundleBeginsSo, NoSessionsBeginSo};

/// A law: a text spells at most one bundle. It does nothing.
pub fn one_bundle()
    ensures { OneBundle }
{}

/// A law: a bundle that a text spells is formed. It does nothing.
pub fn spelled_is_formed()
    ensures { SpelledIsFormed }
{}

/// A law: what is written of a formed bundle reads as that bundle, however long the text is. It
/// does nothing.
pub fn written_is_read()
    ensures { WrittenIsRead }
{}

/// A law: a formed bundle whose text isn't too long is spelled by that text. By `one_bundle` the
/// text spells no other. It does nothing.
pub fn written_is_spelled()
    ensures { WrittenIsSpelled }
{}

/// A law: a bundle that was read within the limits is written within them, that of bytes aside. It
/// does nothing.
pub fn read_is_written()
    ensures { ReadIsWritten }
{}

/// A law: a text spells at most one list of sessions. It does nothing.
pub fn one_list_of_sessions()
    ensures { OneListOfSessions }
{}

/// A law: in a text that reads as a bundle each token may stand where it does, and no more is
/// wanted at its end. It does nothing.
pub fn bundles_go_through()
    ensures { BundlesGoThrough }
{}

/// A law: the same of a text that reads as sessions. It does nothing.
pub fn sessions_go_through()
    ensures { SessionsGoThrough }
{}

/// A law: where a token of a text may not stand, no bundle begins with the tokens up to it,
/// whatever follows them: so that token, or one before it, has to change. It does nothing.
pub fn no_bundle_begins_so()
    ensures { NoBundleBeginsSo }
{}

/// A law: the same of sessions. It does nothing.
pub fn no_sessions_begin_so()
    ensures { NoSessionsBeginSo }
{}
