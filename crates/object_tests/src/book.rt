//! A book through the changes of a script, with values that were worked out by hand.

ghost use Rattle.std.specs.Prelude.{◌≡◌, map};
ghost use Rattle.dioc_terms.specs.Bundles.{IsFormed};
ghost use Rattle.dioc_terms.specs.Plain.{plain};
ghost use Rattle.rule_book.specs.KeptBooks.{coming};

use crate::names::{name, role};
use bundle_text::read_bundle;
use dioc_terms::{Bundle, Index, Items, ScopeHead, Store, Timed};
use rule_book::Book;
use std::alloc::Global;
use std::test::Fail;

/// Four rules are in the book from the start, two are added.
const BUNDLE: &[u8] = b"version 2
aioc { skip }
rules {
  rule p { on { true } do { x@a = nil } }
  rule q { on { true } do { x@a = nil } }
  rule f priority 7 { on { true } do { x@c = nil } }
  rule n priority 6 { on { E.k } do { x@a = nil } }
}
script {
  after 0 add rule s priority 5 { on { true } do { x@a = nil } }
  after 0 add rule p { on { true } do { x@a = nil } }
  after 0 env k = true
  after 0 env k = false
  after 0 drop s
  after 0 drop z
}
";

/// What the book chooses for a scope of level 15 and for one of level 16, and the rules of the
/// names `p` and `s`.
type State = (Option<u32>, Option<u32>, Option<u32>, Option<u32>);

/// From the start, and after the adds of the rules 4 and 5, `k` set to true and to false, the drop
/// of `s`, and that of `z`, which is absent.
const STATES: [State; 7] = [
    (Some(0), None, Some(0), None),
    (Some(4), None, Some(0), Some(4)),
    (Some(4), None, Some(5), Some(4)),
    (Some(3), None, Some(5), Some(4)),
    (Some(4), None, Some(5), Some(4)),
    (Some(5), None, Some(5), None),
    (Some(5), None, Some(5), None),
];

/// A scope of the role `a` alone.
fn scope(alloc: Global, level: u32) -> Result<ScopeHead, Fail> {
    let mut roles = Vec::new(alloc);
    roles.push(role(alloc, b'a')?)?;
    let leader = role(alloc, b'a')?;
    Ok(ScopeHead {
        index: Index { epoch: 0, place: 0 },
        leader,
        roles: Items::new(roles),
        props: Items::new(Vec::new(alloc)),
        level,
    })
}

fn chosen(alloc: Global, book: &Book, level: u32) -> Result<Option<u32>, Fail> {
    let head = scope(alloc, level)?;
    let store = Store::new(alloc, Items::new(Vec::new(alloc)));
    let number = book.choose(&head, &store);
    drop((head, store));
    Ok(number)
}

fn found(alloc: Global, book: &Book, letter: u8) -> Result<Option<u32>, Fail> {
    let name = name(alloc, letter)?;
    Ok(book.find(&name))
}

fn state(alloc: Global, book: &Book) -> Result<State, Fail> {
    let below = chosen(alloc, book, 15)?;
    let at_limit = chosen(alloc, book, 16)?;
    let p = found(alloc, book, b'p')?;
    let s = found(alloc, book, b's')?;
    Ok((below, at_limit, p, s))
}

/// The states of the book from the start, and after each change of the script.
fn states(alloc: Global, book: &mut Book, script: &[Timed]) -> Result<Vec<State>, Fail>
    requires { coming book.old ≡ map (λ timed. timed.change) script.now }
{
    let mut states = Vec::new(alloc);
    states.push(state(alloc, book)?)?;
    for timed in script {
        book.apply(&timed.change);
        states.push(state(alloc, book)?)?;
    }
    Ok(states)
}

fn run(alloc: Global, bundle: &Bundle) -> Result<Vec<State>, Fail>
    requires { IsFormed (plain bundle.now) }
{
    let mut book = Book::new(alloc, bundle)?;
    states(alloc, &mut book, bundle.script.as_slice())
}

/// The states of the book of the bundle.
fn found_states(alloc: Global) -> Result<Vec<State>, Fail> {
    let bundle = read_bundle(alloc, BUNDLE)?;
    run(alloc, &bundle)
}

#[test]
fn goes_through_a_script(rt: HostRuntime) -> Result<(), Fail> {
    let states = found_states(rt.alloc())?;
    assert!(rt; states.as_slice() == STATES.as_slice());
    Ok(())
}
