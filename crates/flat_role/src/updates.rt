//! What runs in the place of a scope or of a tell: a process of its own, which a mark holds.
//!
//! It is kept as it came until it is made ready for an act: then it is compiled. From then on it
//! runs as a whole role does, over a plan of its own, by the same calls.

ghost use Rattle.std.specs.Prelude.{◌≡◌, ◌<◌, ◌++◌, false, true, IfOk, None, OnOk, Some, length};
ghost use Rattle.std.specs.Option.{is_some};
ghost use Rattle.dioc_terms.specs.KeptStores.{store_of, room};
ghost use Rattle.dioc_terms.specs.Processes.{letters, process};
ghost use Rattle.dpoc_process.specs.Acting.{acting};
ghost use Rattle.dpoc_process.specs.Changes.{rest_of};
ghost use Rattle.dpoc_process.specs.Growth.{with_written};
ghost use Rattle.dpoc_process.specs.KeptGrowth.{write_of};
ghost use Rattle.dpoc_process.specs.Handed.{Brings, IsEnabled, handed};
ghost use Rattle.dpoc_process.specs.RoleLaws.{local};
ghost use Rattle.dpoc_process.specs.RoleSteps.{IsStep};
ghost use Rattle.flat_role.specs.declared.marks.State.TheVariants as states;
ghost use Rattle.flat_role.specs.Leaves.{is_leaf};
ghost use Rattle.flat_role.specs.PlanMarks.{plan_len, plan_marks, static_at};
ghost use Rattle.flat_role.specs.Progress.{AreOf, acts_there, offers_there};
ghost use Rattle.flat_role.specs.ReadySteps.{IsNextOf, IsOwnOf};
ghost use Rattle.flat_role.specs.Updates.{IsSound, chosen_in, depth_in, fresh_in, is_running, process_in, update_len, with_updates};
ghost use Rattle.process_steps.specs.Steps.{Given, ended, is_offered, offers, telling};

use crate::advancing::advance;
use crate::leaves::{Next, add_acts_at, offers_at};
use crate::marks::{Mark, State, Update};
use crate::parts::add_told;
use crate::progress::Progress;
use crate::readying::{make_ready, next_of};
use crate::relisting::add_acts;
use crate::steps::{Own, write_store};
use dioc_terms::{Act, Memory, Messages, Proc, Role, Store, give_up};
use dpoc_process::Got;
use dpoc_process::growth::Write;
use dpoc_process::offered::{find, is_ended, offers_of, tells};
use flat_code::{Plan, compile};
use std::alloc::Global;
use std::mem;
use std::snapshot::Snapshot;

impl Update {
    /// Adds the acts that it offers, from left to right.
    #[cycle(acts)]
    pub(crate) fn add_offers(
        &self,
        alloc: Global,
        me: &Role,
        acts: &mut Vec<Act>,
    ) -> Result<(), Memory>
        requires { self.now.role ≡ me.now }
        ensures { OnOk result (acts.new.items ≡ acts.old.items
            ++ offers me.now self.now.process) }
    {
        match &self.state {
            State::Came(proc) => add_offered(alloc, me, proc, acts),
            State::Told(messages, _) => add_told(alloc, me, messages, acts),
            State::Runs(plan, progress) => {
                add_acts(progress, alloc, me, plan, 0, progress.active.len(), acts)
            }
        }
    }

    /// Whether it offers the act.
    #[cycle(find)]
    pub(crate) fn offers(&self, me: &Role, act: &Act) -> bool
        requires { self.now.role ≡ me.now }
        ensures { result ≡ is_offered act.now (offers me.now self.now.process) }
    {
        match &self.state {
            State::Came(proc) => find(me, act, proc).is_some(),
            State::Told(messages, _) => tells(act, me, messages),
            State::Runs(plan, progress) => progress.find(me, plan, act).is_some(),
        }
    }

    /// Whether nothing is left to do.
    pub(crate) fn is_over(&self) -> bool
        ensures { result ≡ ended self.now.process }
    {
        match &self.state {
            State::Came(proc) => is_ended(proc),
            State::Told(messages, _) => matches!(**messages, Messages::Nothing),
            State::Runs(_, progress) => progress.active.is_empty(),
        }
    }

    /// How many ops it runs over, with those of the updates in it; the greatest number where there
    /// are more.
    #[cycle(len)]
    pub(crate) fn code_len(&self) -> usize
        ensures { result ≡ self.now.len }
    {
        match &self.state {
            State::Runs(plan, progress) => count_ops(plan, progress),
            _ => 0,
        }
    }

    /// Makes it ready for an act. What came is compiled before.
    #[cycle(ready)]
    #[inline(never)]
    pub(crate) fn prepare(&mut self, alloc: Global, me: &Role, act: &Act) -> Result<(), Memory>
        requires role { self.old.role ≡ me.now }
        requires acts { is_some (acting me.now act.now self.old.process) ≡ true }
        ensures role { self.new.role ≡ me.now }
        ensures same { self.new.process ≡ self.old.process }
        ensures chosen { OnOk result (self.new.chosen ≡ Some act.now) }
    {
        compile_came(alloc, me, &mut self.state)?;
        state_ready(alloc, me, &mut self.state, act)
    }

    /// What is next of it by the act for which it is ready.
    #[cycle(next)]
    #[inline(never)]
    pub(crate) fn next<'a>(&'a self, me: &Role, act: &Act) -> Next<'a>
        requires role { self.now.role ≡ me.now }
        requires chosen { self.now.chosen ≡ Some act.now }
        requires acts { is_some (acting me.now act.now self.now.process) ≡ true }
        ensures { IsNextOf me.now act.now self.now.process self.now.fresh result }
    {
        match &self.state {
            State::Runs(plan, progress) => next_of(me, plan, progress, act),
            State::Told(messages, _) => Next::Tell(messages),
            State::Came(_) => unreachable!(),
        }
    }

    /// Does the act for which it was made ready, with what comes with it. The answer is whether
    /// nothing is left to do. It takes no memory: there is room for one more variable.
    #[cycle(advance)]
    pub(crate) fn step(
        &mut self,
        me: &Role,
        act: &Act,
        store: &mut Store,
        own: &mut Own,
        got: &mut Got,
    ) -> bool
        requires role { self.old.role ≡ me.now }
        requires chosen { self.old.chosen ≡ Some act.now }
        requires own { IsOwnOf me.now (store_of store.old) act.now self.old.process
            self.old.fresh own.old }
        requires has_room { 0 < room store.old }
        requires can { IsEnabled (local me.now self.old.process (store_of store.old)) act.now
            (handed got.old) }
        ensures role { self.new.role ≡ me.now }
        ensures over { result ≡ ended self.new.process }
        ensures steps { (given : Given) → Brings (local me.now self.old.process
            (store_of store.old)) act.now (handed got.old) given → IsStep (local me.now
            self.old.process (store_of store.old)) act.now given (local me.now self.new.process
            (store_of store.new)) }
    {
        advance_state(me, act, &mut self.state, store, own, got)
    }
}

/// Adds the acts that a place offers, or the update there.
#[cycle(acts)]
pub(crate) fn add_place(
    alloc: Global,
    me: &Role,
    plan: &Plan,
    marks: &[Mark],
    place: usize,
    acts: &mut Vec<Act>,
) -> Result<(), Memory>
    requires inside { place < plan_len plan.now }
    requires as_long { length marks.now ≡ plan_len plan.now }
    requires mine { AreOf me.now marks.now }
    requires leaf { is_leaf (plan_marks me.now plan.now marks.now place) (static_at plan.now place)
        ≡ true }
    ensures { OnOk result (acts.new.items ≡ acts.old.items
        ++ acts_there me.now plan.now (plan_marks me.now plan.now marks.now) place) }
{
    match &marks[place] {
        Mark::Became(update) => update.add_offers(alloc, me, acts),
        _ => add_acts_at(alloc, me, plan, marks, place, acts),
    }
}

/// Whether a place offers the act, or the update there.
#[cycle(find)]
pub(crate) fn place_offers(me: &Role, plan: &Plan, marks: &[Mark], place: usize, act: &Act) -> bool
    requires inside { place < plan_len plan.now }
    requires as_long { length marks.now ≡ plan_len plan.now }
    requires mine { AreOf me.now marks.now }
    requires leaf { is_leaf (plan_marks me.now plan.now marks.now place) (static_at plan.now place)
        ≡ true }
    ensures { result ≡ offers_there me.now plan.now (plan_marks me.now plan.now marks.now) act.now
        place }
{
    match &marks[place] {
        Mark::Became(update) => update.offers(me, act),
        _ => offers_at(me, plan, marks, place, act),
    }
}

/// Adds the acts that a process offers that isn't in code yet.
#[inline(never)]
fn add_offered(alloc: Global, me: &Role, proc: &Proc, acts: &mut Vec<Act>) -> Result<(), Memory>
    ensures { OnOk result (acts.new.items ≡ acts.old.items ++ offers me.now (process proc.now)) }
{
    let mut more = offers_of(alloc, me, proc)?;
    acts.append(&mut more)?;
    Ok(())
}

/// How many ops there are: those of the code, and those of the updates that run in it; the greatest
/// number where there are more.
#[cycle(len)]
pub(crate) fn count_ops(plan: &Plan, progress: &Progress) -> usize
    ensures { result ≡ with_updates (length plan.now.code.ops.items) progress.now.marks.items }
{
    let mut len = plan.code.ops.len();
    for mark in progress.marks.as_slice() {
        len = len.saturating_add(update_len(mark));
    }
    len
}

/// How many ops run at a place with this mark in the place of the code's own.
#[cycle(len)]
fn update_len(mark: &Mark) -> usize
    ensures { result ≡ update_len mark.now }
{
    match mark {
        Mark::Became(update) => update.code_len(),
        _ => 0,
    }
}

/// Compiles what came, and keeps it so. It takes memory by its size.
fn compile_came(alloc: Global, me: &Role, state: &mut State) -> Result<(), Memory>
    requires { IsSound me.now state.old }
    ensures sound { IsSound me.now state.new }
    ensures same { process_in me.now state.new ≡ process_in me.now state.old }
    ensures runs { OnOk result (is_running state.new ≡ true) }
    ensures deep { depth_in state.new ≡ depth_in state.old }
{
    if let State::Came(proc) = state {
        let (plan, progress) = planned(alloc, me, proc)?;
        *state = State::Runs(plan, progress);
    }
    Ok(())
}

/// The plan of a process, with nothing done.
fn planned(alloc: Global, me: &Role, proc: &Proc) -> Result<(Plan, Progress), Memory>
    ensures { IfOk result (λ made. IsSound me.now (states.Runs made.0 made.1)
        × (process_in me.now (states.Runs made.0 made.1) ≡ process proc.now)
        × (depth_in (states.Runs made.0 made.1) ≡ 0)) }
{
    let plan = Plan::new(alloc, compile(alloc, proc)?)?;
    match Progress::new(alloc, me, &plan) {
        Ok(progress) => Ok((plan, progress)),
        Err(fault) => give_up(plan, fault),
    }
}

/// Makes it ready for an act.
#[cycle(ready)]
fn state_ready(alloc: Global, me: &Role, state: &mut State, act: &Act) -> Result<(), Memory>
    requires sound { IsSound me.now state.old }
    requires runs { is_running state.old ≡ true }
    requires acts { is_some (acting me.now act.now (process_in me.now state.old)) ≡ true }
    ensures sound { IsSound me.now state.new }
    ensures same { process_in me.now state.new ≡ process_in me.now state.old }
    ensures chosen { OnOk result (chosen_in state.new ≡ Some act.now) }
{
    match state {
        State::Runs(plan, progress) => match progress.find(me, plan, act) {
            Some(at) => make_ready(alloc, me, plan, progress, (act, at)),
            None => unreachable!(),
        },
        State::Told(_, chosen) => {
            *chosen = Some(Snapshot::of(act));
            Ok(())
        }
        State::Came(_) => unreachable!(),
    }
}

/// Does the act for which this was made ready. The answer is whether nothing is left to do.
#[cycle(advance)]
fn advance_state(
    me: &Role,
    act: &Act,
    state: &mut State,
    store: &mut Store,
    own: &mut Own,
    got: &mut Got,
) -> bool
    requires sound { IsSound me.now state.old }
    requires chosen { chosen_in state.old ≡ Some act.now }
    requires own { IsOwnOf me.now (store_of store.old) act.now (process_in me.now state.old)
        (fresh_in state.old) own.old }
    requires has_room { 0 < room store.old }
    requires can { IsEnabled (local me.now (process_in me.now state.old) (store_of store.old))
        act.now (handed got.old) }
    ensures sound { IsSound me.now state.new }
    ensures over { result ≡ ended (process_in me.now state.new) }
    ensures steps { (given : Given) → Brings (local me.now (process_in me.now state.old)
        (store_of store.old)) act.now (handed got.old) given → IsStep (local me.now
        (process_in me.now state.old) (store_of store.old)) act.now given (local me.now
        (process_in me.now state.new) (store_of store.new)) }
{
    match state {
        State::Runs(plan, progress) => {
            advance(me, plan, act, progress, store, own, got);
            progress.is_done(me, plan)
        }
        State::Told(messages, chosen) => {
            *chosen = None;
            tell_next(messages, store, &mut own.write)
        }
        State::Came(_) => unreachable!(),
    }
}

/// Puts the next message of a tell. The answer is whether it was the last.
#[inline(never)]
fn tell_next(messages: &mut Box<Messages>, store: &mut Store, written: &mut Write) -> bool
    requires { 0 < room store.old }
    ensures left { telling (letters messages.new.value)
        ≡ rest_of (telling (letters messages.old.value)) }
    ensures stored { store_of store.new ≡ with_written (write_of written.old) None
        (store_of store.old) }
    ensures over { result ≡ ended (telling (letters messages.new.value)) }
{
    write_store(store, written, None);
    let told = mem::replace(&mut **messages, Messages::Nothing);
    if let Messages::More(_, _, _) = &told {
        *messages = told.into_rest();
    }
    matches!(**messages, Messages::Nothing)
}
