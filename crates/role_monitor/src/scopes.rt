//! Entries of the role that begin scopes.

ghost use Rattle.std.specs.Prelude.{◌≡◌, ◌<◌, ◌++◌, [], ◌∷◌, suc, length, true, false, Some, IfNone, IfOk, IfSome, OnErr, slice_get};
ghost use Rattle.std.specs.Bool.{OnFalse, OnTrue};
ghost use Rattle.dioc_terms.specs.declared.entries.Chosen.TheVariants as chosen;
ghost use Rattle.dioc_terms.specs.declared.entries.Entry.TheVariants as entries;
ghost use Rattle.dioc_terms.specs.declared.names.Role.{Role as OneRole};
ghost use Rattle.dioc_terms.specs.declared.processes.ScopeHead.{ScopeHead as OneHead};
ghost use Rattle.dioc_terms.specs.Equality.{chosen_eq, entry_eq, member};
ghost use Rattle.dioc_terms.specs.Plain.{plain, setting};
ghost use Rattle.dioc_terms.specs.Terms.{is_in, term};
ghost use Rattle.dpoc_process.specs.Acting.{Lead, acting_lead};
ghost use Rattle.dpoc_process.specs.Handed.{IsEnabled, Kept};
ghost use Rattle.dpoc_process.specs.RoleSteps.{IsShown, IsStep};
ghost use Rattle.limits.specs.Limits.{top_level};
ghost use Rattle.marked_laws.specs.Laws.{IsSound};
ghost use Rattle.process_steps.specs.Steps.{Decision, FromBook, Keeps, Replaces};
ghost use Rattle.role_monitor.specs.Judging.{FailsEntry, KeepsScope, decides};
ghost use Rattle.net_core.specs.Deeds.{asks_scope};
ghost use Rattle.net_core.specs.Scopes.{Tells};
ghost use Rattle.rule_book.specs.KeptBooks.{book_of, IsBookOf};
ghost use Rattle.scope_leader.specs.Plans.{part_of};

use crate::scenes::Scene;
use crate::updates::Update;
use dioc_terms::{Act, Bundle, Chosen, Entry, Memory, Name, Rule, ScopeHead, give_up};
use dpoc_process::{Got, Runs, Shown};
use scope_leader::plan_update;

/// Judges an entry of the role that shows the begin of a scope, for which the role is made ready.
/// The answer is whether the entry is kept: then the role has made its step, and an update is
/// listed. Else, and after want of memory, all is as it was.
pub(crate) fn judge_scope<R: Runs>(
    scene: &Scene<'_>,
    updates: &mut Vec<Update>,
    state: &mut R,
    act: &Act,
    shown: Shown,
) -> Result<bool, Memory>
    requires ready { R.is_ready state.old act.now }
    requires shown { IsShown (R.local state.old) act.now shown }
    requires scope { asks_scope act.now ≡ true }
    requires sound { IsSound (plain scene.now.bundle.now) }
    requires book { IsBookOf (plain scene.now.bundle.now).rules scene.now.book.now }
    requires tells { Tells scene.now.bundle.now.cast (R.local state.old) act.now }
    ensures kept { IfOk result (λ kept. OnTrue kept (KeepsScope
        (setting (plain scene.now.bundle.now)) (R.local state.old) (book_of scene.now.book.now)
        updates.old.items scene.now.entry.now act.now (R.local state.new) updates.new.items)) }
    ensures refused { IfOk result (λ kept. OnFalse kept (FailsEntry (R.local state.old) act.now
        (FromBook (decides (setting (plain scene.now.bundle.now)) (R.local state.old)
        (book_of scene.now.book.now) updates.old.items)) scene.now.entry.now)) }
    ensures same_local { IfOk result
        (λ kept. OnFalse kept (R.local state.new ≡ R.local state.old)) }
    ensures same_updates { IfOk result
        (λ kept. OnFalse kept (updates.new.items ≡ updates.old.items)) }
    ensures local_stays { OnErr result (R.local state.new ≡ R.local state.old) }
    ensures updates_stay { OnErr result (updates.new.items ≡ updates.old.items) }
{
    process_steps::offers_are_steps();
    process_steps::steps_show_their_acts();
    dioc_terms::choices_go_on();
    dioc_terms::mentions_are_roles();
    let head = shown.into_head();
    match scene.book.choose(&head, state.store()) {
        None => {
            let kept = keep(state, scene.entry, act, &head);
            drop(head);
            Ok(kept)
        }
        Some(number) => {
            let rule = rule_at(scene.bundle, number);
            match replace(scene, updates, state, act, &head, rule, number) {
                Ok(kept) => {
                    drop(head);
                    Ok(kept)
                }
                Err(fault) => give_up(head, fault),
            }
        }
    }
}

/// The rule of that number.
fn rule_at(bundle: &Bundle, number: u32) -> &Rule
    requires { number < length bundle.now.rules }
    ensures { slice_get bundle.now.rules number ≡ Some result.now }
{
    &bundle.rules.as_slice()[number as usize]
}

/// The scope keeps its body, where the entry shows so.
fn keep<R: Runs>(state: &mut R, entry: &Entry, act: &Act, head: &ScopeHead) -> bool
    requires ready { R.is_ready state.old act.now }
    requires can { IsEnabled (R.local state.old) act.now Kept }
    requires led { (lead : Lead) × (acting_lead (R.local state.old) act.now ≡ Some lead)
        × (lead.head ≡ head.now) }
    ensures shows { result ≡ entry_eq entry.now
        (entries.Scope head.now.index head.now.leader chosen.Keep) }
    ensures steps { OnTrue result ((decide : OneHead → Decision) → decide head.now ≡ Keeps
        → IsStep (R.local state.old) act.now (FromBook decide) (R.local state.new)) }
    ensures same { OnFalse result (R.local state.new ≡ R.local state.old) }
{
    let kept = is_keep(entry, head);
    if kept {
        state.advance(act, Got::Keep);
    }
    kept
}

/// Whether the entry shows that the scope keeps its body.
fn is_keep(entry: &Entry, head: &ScopeHead) -> bool
    ensures { result ≡ entry_eq entry.now
        (entries.Scope head.now.index head.now.leader chosen.Keep) }
{
    match entry {
        Entry::Scope {
            index,
            role,
            chosen,
        } => *index == head.index && *role == head.leader && matches!(chosen, Chosen::Keep),
        _ => false,
    }
}

/// The rule's body replaces the scope as the next update, where the entry shows so. Else, and after
/// want of memory, all is as it was.
fn replace<R: Runs>(
    scene: &Scene<'_>,
    updates: &mut Vec<Update>,
    state: &mut R,
    act: &Act,
    head: &ScopeHead,
    rule: &Rule,
    number: u32,
) -> Result<bool, Memory>
    requires ready { R.is_ready state.old act.now }
    requires can { IsEnabled (R.local state.old) act.now Kept }
    requires led { (lead : Lead) × (acting_lead (R.local state.old) act.now ≡ Some lead)
        × (lead.head ≡ head.now) }
    requires tells { Tells scene.now.bundle.now.cast (R.local state.old) act.now }
    requires level { head.now.level < top_level }
    requires body { (q : OneRole) → is_in q (term rule.now.body) ≡ true
        → member q scene.now.bundle.now.cast ≡ true }
    ensures shows { IfOk result (λ kept. kept ≡ entry_eq scene.now.entry.now
        (entries.Scope head.now.index head.now.leader
        (chosen.Rule rule.now.name (suc (length updates.old.items))))) }
    ensures steps { IfOk result (λ kept. OnTrue kept ((decide : OneHead → Decision)
        → decide head.now ≡ Replaces rule.now.name (suc (length updates.old.items))
        (part_of scene.now.bundle.now.cast head.now (suc (length updates.old.items))
        (term rule.now.body))
        → IsStep (R.local state.old) act.now (FromBook decide) (R.local state.new))) }
    ensures listed { IfOk result (λ kept. OnTrue kept
        (updates.new.items ≡ updates.old.items ++ record {
          epoch = suc (length updates.old.items);
          rule = number;
          level = suc head.now.level;
        } ∷ [])) }
    ensures same_local { IfOk result
        (λ kept. OnFalse kept (R.local state.new ≡ R.local state.old)) }
    ensures same_updates { IfOk result
        (λ kept. OnFalse kept (updates.new.items ≡ updates.old.items)) }
    ensures local_stays { OnErr result (R.local state.new ≡ R.local state.old) }
    ensures updates_stay { OnErr result (updates.new.items ≡ updates.old.items) }
{
    let Some(epoch) = shown_epoch(scene.entry, head, &rule.name, updates.len()) else {
        return Ok(false);
    };
    updates.reserve(1)?;
    let cast = scene.bundle.cast.as_slice();
    let parts = plan_update(scene.alloc, head, cast, epoch, &rule.body)?;
    let level = head.level + 1;
    state.advance(act, Got::Parts(parts));
    updates.push_reserved(Update {
        epoch,
        rule: number,
        level,
    });
    Ok(true)
}

/// The number of the update by which the entry shows that the rule of this name replaces the scope,
/// where it is the next after so many updates.
fn shown_epoch(entry: &Entry, head: &ScopeHead, name: &Name, count: usize) -> Option<u32>
    ensures next { IfSome result (λ epoch. epoch ≡ suc count) }
    ensures shows { IfSome result (λ epoch. entry_eq entry.now
        (entries.Scope head.now.index head.now.leader (chosen.Rule name.now (suc count)))
        ≡ true) }
    ensures differs { IfNone result (entry_eq entry.now
        (entries.Scope head.now.index head.now.leader (chosen.Rule name.now (suc count)))
        ≡ false) }
{
    let Entry::Scope {
        index,
        role,
        chosen,
    } = entry
    else {
        return None;
    };
    if *index != head.index || *role != head.leader {
        return None;
    }
    next_epoch(chosen, name, count)
}

/// The number of the update that the choice shows, where it is the rule of this name and the next
/// after so many updates.
fn next_epoch(made: &Chosen, name: &Name, count: usize) -> Option<u32>
    ensures next { IfSome result (λ epoch. epoch ≡ suc count) }
    ensures shows { IfSome result
        (λ epoch. chosen_eq made.now (chosen.Rule name.now (suc count)) ≡ true) }
    ensures differs { IfNone result
        (chosen_eq made.now (chosen.Rule name.now (suc count)) ≡ false) }
{
    let Chosen::Rule { name: shown, epoch } = made else {
        return None;
    };
    if shown == name && 0 < *epoch && (*epoch - 1) as usize == count {
        return Some(*epoch);
    }
    None
}
