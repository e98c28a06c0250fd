//! What the book chooses, and what an add makes of its order.

ghost use Rattle.dioc_terms.specs.RuleLaws.{ChoicesGoOn, AddsGoOn};

/// A law: what the book chooses among some rules and one more, going from left to right; what is
/// chosen fits, and no rule that fits has a greater priority. It does nothing.
pub fn choices_go_on()
    ensures { ChoicesGoOn }
{}

/// A law: an added rule goes last where its name is absent, and else replaces the first rule of
/// that name at its place. It does nothing.
pub fn adds_go_on()
    ensures { AddsGoOn }
{}
