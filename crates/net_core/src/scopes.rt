//! The begin of a scope: what the book says of it, and what its leader then does.

ghost use Rattle.std.specs.Prelude.{◌≡◌, ◌<◌, ◌++◌, [], ◌∷◌, ℕ, suc, List, true, Some, IfOk, OnErr, OnOk, map, slice_get};
ghost use Rattle.std.specs.Option.{option_copied, option_map};
ghost use Rattle.dioc_terms.specs.declared.entries.Chosen.TheVariants as chosen;
ghost use Rattle.dioc_terms.specs.declared.entries.Entry.TheVariants as entry;
ghost use Rattle.dioc_terms.specs.declared.names.Role.{Role as OneRole};
ghost use Rattle.dioc_terms.specs.declared.processes.ScopeHead.{ScopeHead as OneHead};
ghost use Rattle.dioc_terms.specs.Equality.{member};
ghost use Rattle.dioc_terms.specs.KeptStores.{store_of};
ghost use Rattle.dioc_terms.specs.Plain.{PlainRule};
ghost use Rattle.dioc_terms.specs.Processes.{letters, process};
ghost use Rattle.dioc_terms.specs.Terms.{is_in, term};
ghost use Rattle.dpoc_process.specs.Acting.{Lead, acting_lead};
ghost use Rattle.dpoc_process.specs.Handed.{IsEnabled, Kept};
ghost use Rattle.dpoc_process.specs.RoleSteps.{IsShown, IsStep};
ghost use Rattle.global_steps.specs.Follow.{book_choice};
ghost use Rattle.limits.specs.Limits.{top_level};
ghost use Rattle.process_steps.specs.Steps.{Decision, FromBook, Keeps, Replaces};
ghost use Rattle.role_mailbox.specs.declared.mail.Mail.{Mail as OneMail};
ghost use Rattle.net_core.specs.Deeds.{given_to, asks_scope, IsDone};
ghost use Rattle.net_core.specs.KeptParts.{body_seen};
ghost use Rattle.net_core.specs.Scopes.{choice_of_body, KnownRules, Tells};
ghost use Rattle.net_core.specs.Standing.{body_of};
ghost use Rattle.rule_book.specs.KeptBooks.{book_of, IsBookOf};
ghost use Rattle.scope_leader.specs.Plans.{begin_messages, part_of};

use crate::bodies::RuleBody;
use dioc_terms::{
    Act, Chosen, Entry, Items, Memory, Name, Parts, Role, Roles, ScopeHead, Store, give_up,
};
use dpoc_process::{Got, Runs, Shown};
use rule_book::Book;
use scope_leader::plan_update;
use std::alloc::Global;
use trace_book::History;

/// What a step reads of a net and does not change.
#[derive(Clone, Copy)]
pub(crate) struct Fixed<'a> {
    pub alloc: Global,
    pub cast: &'a Roles,
    pub book: &'a Book,
    pub bodies: &'a Items<RuleBody>,
}

/// The step of a role that is ready to begin a scope. After a refusal nothing is changed.
pub(crate) fn begin_scope<R: Runs>(
    fixed: &Fixed<'_>,
    state: &mut R,
    updates: &mut u32,
    history: &mut History,
    act: &Act,
    shown: Shown,
) -> Result<(), Memory>
    requires ready { R.is_ready state.old act.now }
    requires shown { IsShown (R.local state.old) act.now shown }
    requires scope { asks_scope act.now ≡ true }
    requires history_room { 0 < history.old.room }
    requires updates { updates.old < 4294967295 }
    requires known { KnownRules fixed.now.cast.now fixed.now.book.now
        (map body_seen fixed.now.bodies.now) }
    requires tells { Tells fixed.now.cast.now (R.local state.old) act.now }
    ensures did { (rules : List PlainRule) (mail : OneMail) → IsBookOf rules fixed.now.book.now
        → map body_seen fixed.now.bodies.now ≡ map body_of rules
        → OnOk result (IsDone act.now
        (given_to fixed.now.cast.now rules mail (book_of fixed.now.book.now) updates.old
        (R.local state.old).store act.now)
        (R.local state.old) mail updates.old history.old.entries
        (R.local state.new) mail updates.new history.new.entries) }
    ensures same_local { OnErr result (R.local state.new ≡ R.local state.old) }
    ensures same_updates { OnErr result (updates.new ≡ updates.old) }
    ensures same_history { OnErr result (history.new ≡ history.old) }
{
    process_steps::offers_are_steps();
    dioc_terms::choices_go_on();
    dioc_terms::mentions_are_roles();
    let head = shown.into_head();
    match choice(fixed, &head, state.store()) {
        None => {
            keep_scope(state, history, act, head);
            Ok(())
        }
        Some(rule) => match replace_scope(fixed, state, updates, history, act, head, rule) {
            Ok(()) => Ok(()),
            Err(fault) => Err(fault),
        },
    }
}

/// The rule's body that the book chooses for the scope.
fn choice<'a>(fixed: &Fixed<'a>, head: &ScopeHead, store: &Store) -> Option<&'a RuleBody>
    ensures { (rules : List PlainRule) → IsBookOf rules fixed.now.book.now
        → map body_seen fixed.now.bodies.now ≡ map body_of rules
        → choice_of_body (option_map body_seen (option_copied result))
        ≡ book_choice rules (book_of fixed.now.book.now) head.now (store_of store.now) }
{
    match fixed.book.choose(head, store) {
        None => None,
        Some(number) => body_at(fixed.bodies, number),
    }
}

/// The body of the rule of that number.
fn body_at<'a>(bodies: &'a Items<RuleBody>, number: u32) -> Option<&'a RuleBody>
    ensures { option_copied result ≡ slice_get bodies.now number }
{
    bodies.as_slice().get(number as usize)
}

/// The scope keeps its body. It takes no memory.
fn keep_scope<R: Runs>(state: &mut R, history: &mut History, act: &Act, head: ScopeHead)
    requires ready { R.is_ready state.old act.now }
    requires can { IsEnabled (R.local state.old) act.now Kept }
    requires led { (lead : Lead) × (acting_lead (R.local state.old) act.now ≡ Some lead)
        × (lead.head ≡ head) }
    requires room { 0 < history.old.room }
    ensures steps { (decide : OneHead → Decision) → decide head ≡ Keeps
        → IsStep (R.local state.old) act.now (FromBook decide) (R.local state.new) }
    ensures pushed { history.new.entries ≡ history.old.entries
        ++ entry.Scope head.index head.leader chosen.Keep ∷ [] }
{
    let index = head.index;
    let leader = head.into_leader();
    state.advance(act, Got::Keep);
    history.push(Entry::Scope {
        index,
        role: leader,
        chosen: Chosen::Keep,
    });
}

/// The rule's body replaces the scope, as the next update. After a refusal nothing is changed.
fn replace_scope<R: Runs>(
    fixed: &Fixed<'_>,
    state: &mut R,
    updates: &mut u32,
    history: &mut History,
    act: &Act,
    head: ScopeHead,
    rule: &RuleBody,
) -> Result<(), Memory>
    requires ready { R.is_ready state.old act.now }
    requires can { IsEnabled (R.local state.old) act.now Kept }
    requires led { (lead : Lead) × (acting_lead (R.local state.old) act.now ≡ Some lead)
        × (lead.head ≡ head) }
    requires tells { Tells fixed.now.cast.now (R.local state.old) act.now }
    requires level { head.level < top_level }
    requires body { (q : OneRole) → is_in q (term rule.now.body) ≡ true
        → member q fixed.now.cast.now ≡ true }
    requires updates { updates.old < 4294967295 }
    requires room { 0 < history.old.room }
    ensures steps { OnOk result ((decide : OneHead → Decision) → decide head
        ≡ Replaces rule.now.name (suc updates.old)
        (part_of fixed.now.cast.now head (suc updates.old) (term rule.now.body))
        → IsStep (R.local state.old) act.now (FromBook decide) (R.local state.new)) }
    ensures pushed { OnOk result (history.new.entries ≡ history.old.entries
        ++ entry.Scope head.index head.leader (chosen.Rule rule.now.name (suc updates.old)) ∷ []) }
    ensures counted { OnOk result (updates.new ≡ suc updates.old) }
    ensures same_local { OnErr result (R.local state.new ≡ R.local state.old) }
    ensures same_updates { OnErr result (updates.new ≡ updates.old) }
    ensures same_history { OnErr result (history.new ≡ history.old) }
{
    let epoch = *updates + 1;
    match planned(fixed.alloc, fixed.cast.as_slice(), &head, rule, epoch) {
        Ok((name, parts)) => {
            let index = head.index;
            let leader = head.into_leader();
            state.advance(act, Got::Parts(parts));
            history.push(Entry::Scope {
                index,
                role: leader,
                chosen: Chosen::Rule { name, epoch },
            });
            *updates = epoch;
            Ok(())
        }
        Err(fault) => give_up(head, fault),
    }
}

/// The name of the rule, and the parts of the update by its body.
fn planned(
    alloc: Global,
    cast: &[Role],
    head: &ScopeHead,
    rule: &RuleBody,
    epoch: u32,
) -> Result<(Name, Parts), Memory>
    requires level { head.now.level < top_level }
    requires body { (q : OneRole) → is_in q (term rule.now.body) ≡ true
        → member q cast.now ≡ true }
    ensures name { IfOk result (λ made. made.0 ≡ rule.now.name) }
    ensures own { IfOk result (λ made. process made.1.own
        ≡ part_of cast.now head.now epoch (term rule.now.body) head.now.leader) }
    ensures tell { IfOk result (λ made. letters made.1.tell
        ≡ begin_messages cast.now head.now epoch (term rule.now.body)) }
{
    let name = rule.name.copy(alloc)?;
    match plan_update(alloc, head, cast, epoch, &rule.body) {
        Ok(parts) => Ok((name, parts)),
        Err(fault) => give_up(name, fault),
    }
}
