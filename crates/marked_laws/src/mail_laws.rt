//! The pending messages as a map.

ghost use Rattle.marked_laws.specs.MailLaws.{MailIsAMap};

/// A law: while no two pending messages have one key, a put sets a key and a take unsets one, and
/// the order of the messages doesn't show. It does nothing.
pub fn mail_is_a_map()
    ensures { MailIsAMap }
{}
