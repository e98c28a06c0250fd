//! The text of each refusal. It is written by hand, and not derived, so that contracts know it.

ghost use Rattle.std.specs.Prelude.{Some};
ghost use Rattle.mend.specs.Texts.{mend_refusal_text};

use crate::refusals::MendRefusal;
use dioc_terms::Name;
use std::{fmt, str};

impl fmt::Display for MendRefusal {
    ghost output = { λ refusal. Some (mend_refusal_text refusal) };

    fn fmt<W: fmt::Write>(&self, f: &mut fmt::Formatter<W>) -> fmt::Result {
        match self {
            MendRefusal::Refused(refusal) => write!(f, "{refusal}"),
            MendRefusal::NameTaken(at, name) => {
                let name = Named(name);
                write!(f, "{at}name taken {name}")
            }
            MendRefusal::TooDeep => f.write_str("too deep"),
        }
    }
}

/// A name, to be shown.
#[derive(Clone, Copy)]
struct Named<'a>(&'a Name);

impl<'a> fmt::Display for Named<'a> {
    ghost output = { λ named. Some named.0.now };

    fn fmt<W: fmt::Write>(&self, f: &mut fmt::Formatter<W>) -> fmt::Result {
        match str::from_utf8(self.0.bytes()) {
            Ok(name) => f.write_str(name),
            Err(_) => unreachable!(),
        }
    }
}
