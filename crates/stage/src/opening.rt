//! The home of a bundle before its first entry.

ghost use Rattle.std.specs.Prelude.{◌≡◌, ◌≤◌, false, IfOk, map};
ghost use Rattle.dioc_terms.specs.Plain.{plain};
ghost use Rattle.marked_laws.specs.Laws.{IsSound};
ghost use Rattle.stage.specs.Homes.{opening_home};

use crate::home::Home;
use dioc_terms::{Bundle, Memory, Name, Role, Rule};
use net_core::keep_script;
use role_mailbox::Mail;
use rule_book::Book;
use std::alloc::Global;
use std::snapshot::Snapshot;
use trace_book::History;

impl Home {
    /// The home of a bundle before its first entry: nothing is pending, the book is the opening
    /// one, and no mark stands.
    pub(crate) fn start(alloc: Global, bundle: &Bundle, limit: u64) -> Result<Home, Memory>
        requires sound { IsSound (plain bundle.now) }
        requires small { limit ≤ 4294967295 }
        ensures { IfOk result (λ home. home ≡ opening_home (plain bundle.now) limit) }
    {
        let cast = bundle.cast.copy(alloc)?;
        let finished = no_marks(alloc, bundle.cast.as_slice())?;
        let names = keep_names(alloc, bundle.rules.as_slice())?;
        let coming = keep_script(alloc, bundle.rules.as_slice(), bundle.script.as_slice())?;
        let book = Book::new(alloc, bundle)?;
        let of = Snapshot::of(bundle);
        let mail = Mail::new(alloc);
        let history = History::new(alloc);
        Ok(Home {
            alloc,
            of,
            limit,
            cast,
            names,
            mail,
            book,
            coming,
            updates: 0,
            history,
            finished,
            stopped: None,
        })
    }
}

/// For each role that it has not finished.
fn no_marks(alloc: Global, cast: &[Role]) -> Result<Vec<bool>, Memory>
    ensures { IfOk result (λ marks. marks.items ≡ map (λ q. false) cast.now) }
{
    let mut marks = Vec::with_capacity(alloc, cast.len())?;
    for _role in cast {
        marks.push_reserved(false);
    }
    Ok(marks)
}

/// The names of the rules, by their numbers.
fn keep_names(alloc: Global, rules: &[Rule]) -> Result<Vec<Name>, Memory>
    ensures { IfOk result (λ names. names.items ≡ map (λ rule. rule.name) rules.now) }
{
    let mut names = Vec::with_capacity(alloc, rules.len())?;
    for rule in rules {
        names.push_reserved(rule.name.copy(alloc)?);
    }
    Ok(names)
}
