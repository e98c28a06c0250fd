//! The text of each refusal. It is written by hand, and not derived, so that contracts know it.

ghost use Rattle.std.specs.Prelude.{Some};
ghost use Rattle.rule_checks.specs.Texts.{refusal_text, where_text, which_text, place_text};

use crate::refusals::{Refusal, Where, Which};
use dioc_terms::{Index, Role};
use std::{fmt, str};

impl fmt::Display for Refusal {
    ghost output = { λ refusal. Some (refusal_text refusal) };

    fn fmt<W: fmt::Write>(&self, f: &mut fmt::Formatter<W>) -> fmt::Result {
        match self {
            Refusal::TooMany(which) => write!(f, "too many {which}"),
            Refusal::UnknownRole(at, role) => {
                let role = Named(role);
                write!(f, "{at}unknown role {role}")
            }
            Refusal::SelfMessage(at, index) => {
                let index = Placed(*index);
                write!(f, "{at}self message {index}")
            }
            Refusal::Unlinked(at, first, second, role) => {
                let (first, second) = (Placed(*first), Placed(*second));
                let role = Named(role);
                write!(f, "{at}unlinked {first} then {second}: {role}")
            }
            Refusal::BodyTooBig(number) => {
                let at = Where::Rule(*number);
                write!(f, "{at}body too big")
            }
            Refusal::Memory => f.write_str("out of memory"),
        }
    }
}

impl fmt::Display for Which {
    ghost output = { λ which. Some (which_text which) };

    fn fmt<W: fmt::Write>(&self, f: &mut fmt::Formatter<W>) -> fmt::Result {
        match self {
            Which::Nodes => f.write_str("nodes"),
            Which::Roles => f.write_str("roles"),
            Which::Rules => f.write_str("rules"),
            Which::Changes => f.write_str("changes"),
        }
    }
}

// Nothing before a refusal of the choreography, the number before one of a rule.
impl fmt::Display for Where {
    ghost output = { λ at. Some (where_text at) };

    fn fmt<W: fmt::Write>(&self, f: &mut fmt::Formatter<W>) -> fmt::Result {
        match self {
            Where::Program => Ok(()),
            Where::Rule(number) => write!(f, "rule {number}: "),
        }
    }
}

/// An index, to be shown as `#0.3`.
#[derive(Clone, Copy)]
struct Placed(Index);

impl fmt::Display for Placed {
    ghost output = { λ placed. Some (place_text placed.0) };

    fn fmt<W: fmt::Write>(&self, f: &mut fmt::Formatter<W>) -> fmt::Result {
        let (epoch, place) = (self.0.epoch, self.0.place);
        write!(f, "#{epoch}.{place}")
    }
}

/// A role, to be shown by its name.
#[derive(Clone, Copy)]
struct Named<'a>(&'a Role);

impl<'a> fmt::Display for Named<'a> {
    ghost output = { λ named. Some named.0.now.0 };

    fn fmt<W: fmt::Write>(&self, f: &mut fmt::Formatter<W>) -> fmt::Result {
        match str::from_utf8(self.0.0.bytes()) {
            Ok(name) => f.write_str(name),
            Err(_) => unreachable!(),
        }
    }
}
