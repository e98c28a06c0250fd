//! The rule book of a bundle.

ghost use Rattle.std.specs.Prelude.{◌+◌, ◌≤◌, vec_len};
ghost use Rattle.std.specs.Vec.{vec_capacity};
ghost use Rattle.std.specs.VecDeque.{deque_len};
ghost use Rattle.indexmap.specs.IndexMap.{spare};

use crate::keeping::{keep_env, keep_opening, keep_script};
use crate::kept::{KeptChange, KeptRule};
use dioc_terms::{
    Bundle, Change, Memory, Name, ScopeHead, Store, Value, casts_are_roles, choices_go_on,
    mentions_are_roles,
};
use indexmap::IndexMap;
use std::alloc::Global;
use std::collections::VecDeque;

/// The rule book of a bundle: the rules that may replace scopes, in the order of their first
/// adding, the environment, and the changes of the script that are still to come. The memory of
/// these changes is taken when the book is made.
pub struct Book {
    rules: IndexMap<Name, KeptRule>,
    // The last pair of a name counts.
    env: Vec<(Name, Value)>,
    coming: VecDeque<KeptChange>,
    ghost rules_fit: { deque_len coming ≤ spare rules },
    ghost pairs_fit: { vec_len env + deque_len coming ≤ vec_capacity env },
}

impl Drop for Book {
    fn drop(self) {
        let Book {
            rules: _,
            env: _,
            coming: _,
        } = self;
    }
}

impl Book {
    ghost use Rattle.std.specs.Prelude.{◌≡◌, List, Some, IfOk, drop, find, map, slice_get};
    ghost use Rattle.dioc_terms.specs.Bundles.{IsFormed};
    ghost use Rattle.dioc_terms.specs.KeptStores.{store_of};
    ghost use Rattle.dioc_terms.specs.Plain.{PlainRule, plain};
    ghost use Rattle.dioc_terms.specs.Rules.{apply, choose, is_named, opening_book};
    ghost use Rattle.rule_book.specs.KeptBooks.{book_of, coming, IsBookOf};

    /// The book of a formed bundle before the first change: the opening rules, added one after
    /// another, and the environment. The memory of all changes of the script is taken.
    pub fn new(alloc: Global, bundle: &Bundle) -> Result<Book, Memory>
        requires { IsFormed (plain bundle.now) }
        ensures opening { IfOk result (λ book. book_of book ≡ opening_book (plain bundle.now).rules
            bundle.now.opening bundle.now.env) }
        ensures coming { IfOk result (λ book. coming book ≡ map (λ timed. timed.change)
            bundle.now.script) }
        ensures of { IfOk result (IsBookOf (plain bundle.now).rules) }
    {
        let rules = bundle.rules.as_slice();
        let coming = keep_script(alloc, rules, bundle.script.as_slice())?;
        let env = keep_env(alloc, &bundle.env, coming.len())?;
        let rules = keep_opening(alloc, rules, bundle.opening, coming.len())?;
        Ok(Book { rules, env, coming })
    }

    /// Makes the next change of the script, which is the first of those still to come. It takes no
    /// memory: the book holds a copy of the change.
    ///
    /// An add whose name is present replaces that rule at its place, else the rule goes last. A
    /// drop of an absent name changes nothing. A key of the environment has the value that was set
    /// last.
    pub fn apply(&mut self, change: &Change)
        requires next { slice_get (coming self.old) 0 ≡ Some change.now }
        ensures applied { (rules : List PlainRule) → IsBookOf rules self.old → book_of self.new
            ≡ apply rules (book_of self.old) change.now }
        ensures coming { coming self.new ≡ drop 1 (coming self.old) }
        ensures of { (rules : List PlainRule) → IsBookOf rules self.old → IsBookOf rules self.new }
    {
        match self.coming.pop_front() {
            Some(KeptChange::Add(name, rule)) => {
                let _replaced = self.rules.insert(name, rule).unwrap();
            }
            Some(KeptChange::Drop(name)) => {
                let _dropped = self.rules.shift_remove(&name);
            }
            Some(KeptChange::Env(key, value)) => self.env.push((key, value)).unwrap(),
            None => {}
        }
    }

    /// The number of the rule that the book chooses for a scope, given its leader's store: of the
    /// rules that fit, the first of those with the greatest priority. `None` exactly where no rule
    /// fits. It takes no memory.
    ///
    /// A rule fits where its condition holds over the scope's properties, the environment and the
    /// store, where all roles of its body are roles of the scope, and where the scope's level is
    /// below 16.
    pub fn choose(&self, head: &ScopeHead, store: &Store) -> Option<u32>
        ensures { (rules : List PlainRule) → IsBookOf rules self.now
            → result ≡ choose rules (book_of self.now) head.now (store_of store.now) }
    {
        choices_go_on();
        casts_are_roles();
        mentions_are_roles();
        let rules = self.rules.values().as_slice();
        let mut best: Option<(u32, i32)> = None;
        for rule in rules {
            if rule.is_above(best) && rule.fits(head, store, &self.env) {
                best = Some((rule.number, rule.priority));
            }
        }
        best.map(|(number, _)| number)
    }

    /// The number of the rule of that name in the book, `None` exactly where there is none. It
    /// takes no memory.
    pub fn find(&self, name: &Name) -> Option<u32>
        ensures { (rules : List PlainRule) → IsBookOf rules self.now
            → result ≡ find (is_named rules name.now) (book_of self.now).order }
    {
        self.rules.get(name).map(|rule| rule.number)
    }
}
