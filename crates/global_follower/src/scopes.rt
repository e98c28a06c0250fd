//! How a scope plays the choice of its leader.

ghost use Rattle.std.specs.Prelude.{◌≡◌, ◌==◌, ◌<◌, ◌++◌, ◌∷◌, [], suc, true, None, Some, IfOk, IfSome, OnOk, if◌then◌else◌, option_map};
ghost use Rattle.dioc_terms.specs.declared.entries.Chosen.TheVariants.{Keep as keeps, Rule as takes};
ghost use Rattle.dioc_terms.specs.Equality.{chosen_eq};
ghost use Rattle.dioc_terms.specs.Plain.{plain_rule};
ghost use Rattle.dioc_terms.specs.Terms.{at_epoch, is_in, roles_in, stamped, term};
ghost use Rattle.global_follower.specs.KeptBooks.{rules_of};
ghost use Rattle.global_follower.specs.KeptRunning.{part_term};
ghost use Rattle.global_follower.specs.Playing.{attempt_of, plays_in};
ghost use Rattle.global_follower.specs.Scopes.{choice_by, choice_of, chosen_body, played_scope, is_scope_term};
ghost use Rattle.limits.specs.Limits.{top_level};
ghost use Rattle.global_steps.specs.Running.{started};

use crate::plays::{Played, Scene, leaves};
use crate::rules::RuleList;
use crate::running::{Marks, Part, Running};
use crate::shown::choice;
use dioc_terms::{
    Bindings, Choreo, Chosen, Index, Items, Memory, Role, Roles, Rule, ScopeHead, names_role,
    new_box, stamped_bodies,
};
use std::alloc::Global;

/// How a scope plays the entry: its leader chooses what the book chooses, the scope's own body or
/// that of a rule as the next update, one level higher.
pub(crate) fn play_scope<'a>(
    alloc: Global,
    scope: Part<'a>,
    scene: &Scene<'a, '_>,
) -> Result<Option<Played<'a>>, Memory>
    requires { is_scope_term (term scope.choreo.now) ≡ true }
    ensures { IfOk result (λ played. attempt_of played
        ≡ plays_in scene.now (started (part_term scope.entry))) }
{
    let marks = scope.marks;
    match scope.choreo {
        Choreo::Scope {
            index,
            leader,
            body,
            props,
            ..
        } => match choice(scene.entry, marks.of(*index), leader) {
            None => Ok(None),
            Some(shown) => {
                let cast = scene.rules.bundle.cast.as_slice();
                let head = head(alloc, scope, *index, leader, props, cast)?;
                let store = scene.stores.of(leader);
                let rule = scene.book.choose(scene.rules, &head, store);
                let body = marks.inside(body);
                let body = chosen_body(scene.rules, rule, shown, body, scene.updates);
                enter(alloc, scope, body)
            }
        },
        _ => unreachable!(),
    }
}

/// The scope with the body that was chosen.
fn enter<'a>(
    alloc: Global,
    scope: Part<'a>,
    body: Option<Part<'a>>,
) -> Result<Option<Played<'a>>, Memory>
    ensures { IfOk result (λ played. attempt_of played
        ≡ played_scope (λ q. is_in q (part_term scope.entry))
        (option_map part_term body.entry)) }
{
    match body {
        None => Ok(None),
        Some(body) => {
            let inside = new_box(alloc, Running::Still(body))?;
            Ok(Some(leaves(Running::Bar(scope, inside))))
        }
    }
}

/// The body that is played where the leader chose so: the scope's own where no rule is chosen, else
/// the rule's. `None` where the leader chose otherwise.
fn chosen_body<'a>(
    rules: RuleList<'a>,
    rule: Option<u32>,
    shown: &Chosen,
    body: Part<'a>,
    updates: u64,
) -> Option<Part<'a>>
    requires { IfSome rule (λ number. body.marks.level < top_level) }
    ensures { option_map part_term result
        ≡ chosen_body shown.now (choice_of (rules_of rules.entry) rule) (part_term body.entry)
        updates body.entry.marks.level }
{
    match chosen_rule(rules, rule) {
        None => kept_body(shown, body),
        Some(rule) => new_body(shown, rule, updates, body.marks.level),
    }
}

/// The rule of that number, where one is chosen.
fn chosen_rule<'a>(rules: RuleList<'a>, number: Option<u32>) -> Option<&'a Rule>
    ensures { choice_of (rules_of rules.entry) number
        ≡ choice_by (option_map (λ rule. plain_rule rule.now) result) }
{
    match number {
        None => None,
        Some(number) => rules.get(number),
    }
}

/// The scope's own body, where the leader keeps it.
fn kept_body<'a>(shown: &Chosen, body: Part<'a>) -> Option<Part<'a>>
    ensures { option_map part_term result
        ≡ (if chosen_eq shown.now keeps then Some (part_term body.entry) else None) }
{
    match shown {
        Chosen::Keep => Some(body),
        Chosen::Rule { .. } => None,
    }
}

/// The rule's body as the next update, one level above this one, where the leader takes the rule
/// so.
fn new_body<'a>(shown: &Chosen, rule: &'a Rule, updates: u64, level: u32) -> Option<Part<'a>>
    requires { level < top_level }
    ensures { option_map part_term result
        ≡ (if chosen_eq shown.now (takes rule.now.name (suc updates))
        then Some (stamped (term rule.now.body) (suc updates) (suc level)) else None) }
{
    match shown {
        Chosen::Rule { name, epoch } => {
            if *name != rule.name || !is_next(*epoch, updates) {
                return None;
            }
            let marks = Marks {
                epoch: *epoch,
                level: level + 1,
            };
            Some(marks.part(&rule.body))
        }
        Chosen::Keep => None,
    }
}

/// Whether the epoch is that of the next update.
fn is_next(epoch: u32, updates: u64) -> bool
    ensures { result ≡ (epoch == suc updates) }
{
    epoch != 0 && u64::from(epoch - 1) == updates
}

/// What the leader shows the book: the scope without its body, its roles in the order of the cast.
fn head(
    alloc: Global,
    scope: Part<'_>,
    index: Index,
    leader: &Role,
    props: &Bindings,
    cast: &[Role],
) -> Result<ScopeHead, Memory>
    ensures { IfOk result (λ head. head ≡
        record {
          index = at_epoch scope.entry.marks.epoch index;
          leader = leader.now;
          roles = roles_in cast.now (part_term scope.entry);
          props = props.now;
          level = scope.entry.marks.level;
        }) }
{
    stamped_bodies();
    let marks = scope.marks;
    Ok(ScopeHead {
        index: marks.of(index),
        leader: leader.copy(alloc)?,
        roles: roles_in(alloc, cast, scope.choreo)?,
        props: props.copy(alloc)?,
        level: marks.level,
    })
}

/// The roles of the cast that the scope names, in the order of the cast.
fn roles_in(alloc: Global, cast: &[Role], scope: &Choreo) -> Result<Roles, Memory>
    ensures { IfOk result (λ roles. roles ≡ roles_in cast.now (term scope.now)) }
{
    let mut roles = Vec::new(alloc);
    for role in cast {
        keep(alloc, &mut roles, role, names_role(scope, role))?;
    }
    Ok(Items::new(roles))
}

/// Adds the role where it is kept.
fn keep(alloc: Global, roles: &mut Vec<Role>, role: &Role, is_kept: bool) -> Result<(), Memory>
    ensures { OnOk result (roles.new.items ≡ roles.old.items
        ++ (if is_kept then role.now ∷ [] else [])) }
{
    if is_kept {
        roles.push(role.copy(alloc)?)?;
    }
    Ok(())
}
