//! The rule book of a play, as a plain list of the numbers of rules and a list of pairs.

ghost use Rattle.std.specs.Prelude.{◌≡◌, ◌<◌, ◌++◌, ◌∷◌, [], Some, filter, length, not, position, IfOk, IfSome, OnErr, OnOk};
ghost use Rattle.dioc_terms.specs.KeptStores.{store_of};
ghost use Rattle.dioc_terms.specs.RuleLaws.{greater_of};
ghost use Rattle.dioc_terms.specs.Rules.{add_rule, added, apply, choose, is_named, opening_book};
ghost use Rattle.limits.specs.Limits.{top_level};
ghost use Rattle.global_follower.specs.KeptBooks.{book_of, rules_of};

use crate::rules::RuleList;
use dioc_terms::{Bindings, Change, Memory, Name, ScopeHead, Store, Value, choices_go_on};
use std::alloc::Global;

/// The rules in the book, by their numbers, and the pairs of the environment, of which the last one
/// of a key counts.
#[derive(Drop)]
pub(crate) struct PlainBook {
    order: Vec<u32>,
    env: Vec<(Name, Value)>,
}

impl PlainBook {
    /// The first so many rules, added one after another, and the environment.
    pub(crate) fn opening(
        alloc: Global,
        rules: RuleList<'_>,
        opening: u32,
        env: &Bindings,
    ) -> Result<PlainBook, Memory>
        ensures { IfOk result (λ book. book_of book
            ≡ opening_book (rules_of rules.entry) opening env.now) }
    {
        let mut order = Vec::new(alloc);
        for number in 0..opening {
            add(rules, &mut order, number)?;
        }
        let env = env.copy(alloc)?.into_vec();
        Ok(PlainBook { order, env })
    }

    /// Makes a change. After want of memory the book is as it was.
    pub(crate) fn apply(
        &mut self,
        alloc: Global,
        rules: RuleList<'_>,
        change: &Change,
    ) -> Result<(), Memory>
        ensures applied { OnOk result (book_of self.new
            ≡ apply (rules_of rules.entry) (book_of self.old) change.now) }
        ensures same { OnErr result (book_of self.new ≡ book_of self.old) }
    {
        match change {
            Change::Add(number) => add(rules, &mut self.order, *number),
            Change::Drop(name) => {
                drop_rule(rules, &mut self.order, name);
                Ok(())
            }
            Change::Env(key, value) => set_key(alloc, &mut self.env, key, value),
        }
    }

    /// The number of the rule that is chosen for a scope, given its leader's store.
    pub(crate) fn choose(&self, rules: RuleList<'_>, head: &ScopeHead, store: &Store) -> Option<u32>
        ensures chosen { result ≡ choose (rules_of rules.entry) (book_of self.now) head.now
            (store_of store.now) }
        ensures below { IfSome result (λ number. head.now.level < top_level) }
    {
        choices_go_on();
        self.best_rule(rules, head, store)
    }

    fn best_rule(&self, rules: RuleList<'_>, head: &ScopeHead, store: &Store) -> Option<u32>
        ensures { result ≡ choose (rules_of rules.entry) (book_of self.now) head.now
            (store_of store.now) }
    {
        choices_go_on();
        let mut best = None;
        for number in self.order.as_slice() {
            if rules.fits(self.env.as_slice(), head, store, *number) {
                best = Some(better(rules, best, *number));
            }
        }
        best
    }
}

/// The better one of the best so far and one more: it must have a greater priority to be better.
fn better(rules: RuleList<'_>, best: Option<u32>, number: u32) -> u32
    ensures { Some result ≡ greater_of (rules_of rules.entry) best number }
{
    match best {
        Some(best) if rules.no_lower(best, number) => best,
        _ => number,
    }
}

/// Adds the rule of that number by its name: it replaces the rule of that name, else goes last. A
/// number past the rules adds nothing.
fn add(rules: RuleList<'_>, order: &mut Vec<u32>, number: u32) -> Result<(), Memory>
    ensures added { OnOk result (order.new.items
        ≡ added (rules_of rules.entry) number order.old.items) }
    ensures same { OnErr result (order.new.items ≡ order.old.items) }
{
    match rules.get(number) {
        Some(rule) => add_named(rules, &rule.name, order, number),
        None => Ok(()),
    }
}

/// Adds the rule of that number, whose name is this.
#[tactic(auto, using(crate::proofs::BookLemmas::put_at, crate::proofs::BookLemmas::added_last))]
fn add_named(
    rules: RuleList<'_>,
    name: &Name,
    order: &mut Vec<u32>,
    number: u32,
) -> Result<(), Memory>
    ensures added { OnOk result (order.new.items
        ≡ add_rule (rules_of rules.entry) number name.now order.old.items) }
    ensures same { OnErr result (order.new.items ≡ order.old.items) }
{
    match place_of(rules, name, order.as_slice()) {
        Some(place) => {
            order[place] = number;
            Ok(())
        }
        None => Ok(order.push(number)?),
    }
}

/// The place of the first rule of the name.
fn place_of(rules: RuleList<'_>, name: &Name, order: &[u32]) -> Option<usize>
    ensures place { result ≡ position (is_named (rules_of rules.entry) name.now) order.now }
    ensures within { IfSome result (λ place. place < length order.now) }
{
    order
        .iter()
        .position(|number| rules.is_named(name, *number))
}

/// Drops the rules of the name.
fn drop_rule(rules: RuleList<'_>, order: &mut Vec<u32>, name: &Name)
    ensures { order.new.items ≡ filter (λ m. not (is_named (rules_of rules.entry) name.now m))
        order.old.items }
{
    order.retain(|number| !rules.is_named(name, *number));
}

/// Sets a key of the environment.
fn set_key(
    alloc: Global,
    env: &mut Vec<(Name, Value)>,
    key: &Name,
    value: &Value,
) -> Result<(), Memory>
    ensures set { OnOk result (env.new.items ≡ env.old.items ++ (key.now, value.now) ∷ []) }
    ensures same { OnErr result (env.new.items ≡ env.old.items) }
{
    let pair = (key.copy(alloc)?, value.copy(alloc)?);
    env.push(pair)?;
    Ok(())
}
