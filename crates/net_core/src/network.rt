//! The network of a bundle, stepped entry by entry.

ghost use Rattle.std.specs.Prelude.{◌≡◌, ◌≢◌, ◌<◌, ◌≤◌, Some, true, false, ◌&&◌, not, IfErr, IfOk, OnErr, OnOk, length, nat_le};
ghost use Rattle.std.specs.List.{position};
ghost use Rattle.dioc_terms.specs.declared.entries.Act.{Act as OneAct};
ghost use Rattle.dioc_terms.specs.declared.names.Role.{Role as OneRole};
ghost use Rattle.dioc_terms.specs.Equality.{member, role_eq};
ghost use Rattle.dioc_terms.specs.Plain.{setting};
ghost use Rattle.dpoc_process.specs.LocalStates.{IsNumbered, LacksAt};
ghost use Rattle.network_steps.specs.Network.{network_ended};
ghost use Rattle.network_steps.specs.Schedule.{change_due, is_ready, moves};
ghost use Rattle.process_steps.specs.Steps.{ended};
ghost use Rattle.net_core.specs.Acts.{IsNumberedIf};
ghost use Rattle.net_core.specs.Changes.{IsChangeOf, change_fault};
ghost use Rattle.net_core.specs.MovesIn.{are_places, chosen, ready_of};
ghost use Rattle.net_core.specs.Nets.{IsSoundRun, network_of};
ghost use Rattle.net_core.specs.Places.{offers_at, offers_of, places_of};
ghost use Rattle.net_core.specs.Steps.{IsStepAt, IsStepOf, fault_at, fault_of};

use crate::bodies::{Coming, RuleBody};
use crate::changing::make_change;
use crate::faults::ChangeFault;
use crate::laws::steps_run;
use crate::listing::{is_first_due, list_moves, ready_at, refresh_at};
use crate::parts::{Asked, all_done, is_done_at, is_there, place_of, step_role};
use crate::scopes::Fixed;
use crate::starting::{keep_bodies, keep_script, role_states};
use dioc_terms::{Act, Bundle, Items, Memory, Role, Roles};
use dpoc_process::{Begins, Runs};
use network_steps::{Move, StepFault};
use role_mailbox::Mail;
use rule_book::Book;
use std::alloc::Global;
use std::collections::VecDeque;
use std::marker::Model;
use std::snapshot::Snapshot;
use trace_book::History;

/// The network of a bundle after some entries, of which there may be at most `limit`.
pub struct Net<R: Runs> {
    alloc: Global,
    of: Snapshot<Bundle>,
    cast: Roles,
    roles: Vec<R>,
    mail: Mail,
    book: Book,
    bodies: Items<RuleBody>,
    coming: VecDeque<Coming>,
    updates: u32,
    history: History,
    limit: u64,
}

impl<R: Runs + Drop> Drop for Net<R> {
    fn drop(self) {
        let Net {
            alloc: _,
            of: _,
            cast: _,
            roles: _,
            mail: _,
            book: _,
            bodies: _,
            coming: _,
            updates: _,
            history: _,
            limit: _,
        } = self;
    }
}

impl<R: Runs> Model for Net<R> {
    ghost use Rattle.std.specs.Prelude.{map};
    ghost use Rattle.std.specs.Coded.{codes};
    ghost use Rattle.dioc_terms.specs.Plain.{plain};
    ghost use Rattle.net_core.specs.KeptParts.{body_seen, due_seen};
    ghost use Rattle.network_steps.specs.Schedule.{change_due, moves};
    ghost use Rattle.net_core.specs.Changes.{IsChangeOf, change_fault};
    ghost use Rattle.net_core.specs.Codes.{expression_code, term_code};
    ghost use Rattle.net_core.specs.Nets.{NetState};
    ghost use Rattle.net_core.specs.Standing.{HoldsRun};

    ghost Value = { NetState };

    ghost coded = { Prim.hlevel (codes, expression_code, term_code) };

    ghost view = { λ net. record {
      bundle = plain net.of.value;
      history = net.history.entries;
      limit = net.limit;
    } };

    ghost invariant = { λ net. HoldsRun (plain net.of.value) net.limit (record {
      cast = net.cast;
      locals = map R.local net.roles.items;
      mail = net.mail;
      book = net.book;
      bodies = map body_seen net.bodies;
      coming = map due_seen net.coming.items;
      updates = net.updates;
      history = net.history.entries;
    }) };
}

impl<R: Runs> Net<R> {
    /// The entries so far. They are a run of the bundle, of at most as many entries as the limit.
    pub fn history(&self) -> &History
        ensures entries { result.now.entries ≡ self.now.history }
        ensures run { IsSoundRun self.now }
    {
        &self.history
    }

    /// The history, without the network.
    pub fn into_history(self) -> History
        ensures { result.entries ≡ self.history }
    {
        let Net {
            alloc: _,
            of: _,
            cast: _,
            roles: _,
            mail: _,
            book: _,
            bodies: _,
            coming: _,
            updates: _,
            history,
            limit: _,
        } = self;
        history
    }

    /// How many entries there may be.
    pub fn limit(&self) -> u64
        ensures { result ≡ self.now.limit }
    {
        self.limit
    }

    /// The allocator that its memory comes from.
    pub fn allocator(&self) -> Global {
        self.alloc
    }

    /// The roles, in the cast's order.
    pub fn cast(&self) -> &[Role]
        ensures { result.now ≡ self.now.bundle.cast }
    {
        self.cast.as_slice()
    }

    /// The acts that a role of the cast can do now: those that its process offers, from left to
    /// right in it, without takes whose message isn't pending.
    pub fn ready_acts(&self, role: &Role) -> Result<Vec<Act>, Memory>
        requires { member role.now self.now.bundle.cast ≡ true }
        ensures { IfOk result (λ acts. acts.items ≡ ready_of (network_of self.now) role.now) }
    {
        let cast = self.cast.as_slice();
        match ready_at(self.alloc, cast, self.roles.as_slice(), &self.mail, role) {
            Ok(acts) => Ok(acts),
            Err(fault) => Err(fault),
        }
    }

    /// Lists, in lists from before, the acts that the process of a role of the cast offers, and the
    /// places among them of those that it can do now: of all but the takes whose message isn't
    /// pending. An act that stands in the list already may stay as it is.
    pub fn refresh_ready(
        &self,
        role: &Role,
        acts: &mut Vec<Act>,
        ready: &mut Vec<usize>,
    ) -> Result<(), Memory>
        requires { member role.now self.now.bundle.cast ≡ true }
        ensures ready { OnOk result (chosen ready.new.items acts.new.items
            ≡ ready_of (network_of self.now) role.now) }
        ensures acts { OnOk result (acts.new.items ≡ offers_of (network_of self.now) role.now) }
        ensures places { OnOk result (ready.new.items
            ≡ places_of (is_ready (network_of self.now)) acts.new.items) }
        ensures inside { are_places ready.new.items acts.new.items ≡ true }
    {
        let cast = self.cast.as_slice();
        let roles = self.roles.as_slice();
        match refresh_at(self.alloc, cast, roles, &self.mail, role, acts, ready) {
            Ok(()) => Ok(()),
            Err(fault) => Err(fault),
        }
    }

    /// Lists the acts that the process of the role at that place of the cast offers, in a list that
    /// has all of them but some, which come one behind the other at the place `at`, both places
    /// counted from 0. After `Memory` the list may have any acts.
    pub fn fill_acts_at(&self, place: usize, acts: &mut Vec<Act>, at: usize) -> Result<(), Memory>
        requires there { place < length self.now.bundle.cast }
        requires inside { at ≤ length acts.old.items }
        requires lacks { LacksAt at acts.old.items (offers_at self.now place) }
        ensures { OnOk result (acts.new.items ≡ offers_at self.now place) }
    {
        let state = &self.roles[place];
        state.fill_acts(self.alloc, acts, at)
    }

    /// The place of a role in the cast, `None` where it isn't of the cast.
    fn place_of(&self, role: &Role) -> Option<usize>
        ensures { result ≡ position (role_eq role.now) self.now.bundle.cast }
    {
        place_of(self.cast.as_slice(), role)
    }

    /// Whether what an act needs is there: of every act but a take whose message isn't pending. It
    /// takes no memory.
    pub fn is_ready(&self, act: &Act) -> bool
        ensures { result ≡ is_ready (network_of self.now) act.now }
    {
        is_there(&self.mail, act)
    }

    /// How many updates were made.
    pub fn updates(&self) -> u32
        ensures { result ≡ (network_of self.now).updates }
    {
        self.updates
    }

    /// Whether each process has ended and no message is pending.
    pub fn is_ended(&self) -> bool
        ensures { result ≡ network_ended self.now.bundle.cast (network_of self.now) }
    {
        self.mail.len() == 0 && all_done(self.roles.as_slice())
    }

    /// Whether the process of a role of the cast has ended. Its messages may still be pending. It
    /// takes no memory.
    pub fn is_done(&self, role: &Role) -> bool
        requires { member role.now self.now.bundle.cast ≡ true }
        ensures { result ≡ ended ((network_of self.now).processes role.now) }
    {
        is_done_at(self.cast.as_slice(), self.roles.as_slice(), role)
    }

    /// Whether the history has as many entries as it may.
    fn is_full(&self) -> bool
        ensures { result ≡ nat_le self.now.limit (length self.now.history) }
    {
        self.history.len() >= self.limit
    }

    /// The moves of the network, in the order in which a schedule numbers them: the script's next
    /// change where it is due and the network has not ended, and then the acts that the roles
    /// offer, role by role in the cast's order, without takes whose message isn't pending.
    pub fn moves(&self) -> Result<Vec<Move>, Memory>
        ensures { IfOk result
            (λ found. found.items ≡ moves (setting self.now.bundle) (network_of self.now)) }
    {
        let due = self.is_change_due();
        match list_moves(self.alloc, &self.cast, &self.roles, &self.mail, due) {
            Ok(found) => Ok(found),
            Err(fault) => Err(fault),
        }
    }

    /// Whether the script's next change is due and the network has not ended.
    pub fn is_change_due(&self) -> bool
        ensures { result ≡ (change_due self.now.bundle.script (network_of self.now).changes
            (network_of self.now).visible
            && not (network_ended self.now.bundle.cast (network_of self.now))) }
    {
        let due = is_first_due(&self.coming, self.history.visible_len());
        let ended = self.is_ended();
        due && !ended
    }

    /// The step of a role by an act. The refusals come in the order of their variants; after any of
    /// them the net is unchanged.
    pub fn step(&mut self, role: &Role, act: &Act) -> Result<(), StepFault>
        requires { (network_of self.old).updates < 4294967295 }
        ensures stepped { OnOk result (IsStepOf self.old role.now act.now self.new) }
        ensures refused { IfErr result (λ fault. fault ≢ StepFault.Memory
            → fault_of self.old role.now act.now ≡ Some fault) }
        ensures err { OnErr result (self.new ≡ self.old) }
    {
        self.may_go()?;
        let Some(place) = self.place_of(role) else {
            return Err(StepFault::NoAct);
        };
        self.act(place, Asked { act, number: None })
    }

    /// The step of the role that stands at that place of the cast, by the act of that number among
    /// those that its process offers, both counted from 0; no act before it is the same. The
    /// refusals are those of `step`, in their order; after any of them the net is unchanged.
    pub fn step_at(&mut self, place: usize, number: usize, act: &Act) -> Result<(), StepFault>
        requires there { place < length self.old.bundle.cast }
        requires numbered { IsNumbered number act.now (offers_at self.old place) }
        requires updates { (network_of self.old).updates < 4294967295 }
        ensures stepped { OnOk result (IsStepAt self.old place act.now self.new) }
        ensures refused { IfErr result (λ fault. fault ≢ StepFault.Memory
            → fault_at self.old place act.now ≡ Some fault) }
        ensures err { OnErr result (self.new ≡ self.old) }
    {
        let asked = Asked {
            act,
            number: Some(number),
        };
        match self.may_go() {
            Ok(()) => self.act(place, asked),
            Err(fault) => Err(fault),
        }
    }

    /// Refuses the steps of all roles once the network has ended, or where the history is full.
    fn may_go(&self) -> Result<(), StepFault>
        ensures goes { OnOk result (network_ended self.now.bundle.cast (network_of self.now)
            ≡ false) }
        ensures room { OnOk result (length self.now.history < self.now.limit) }
        ensures refused { IfErr result (λ fault. (role : OneRole) (a : OneAct)
            → fault_of self.now role a ≡ Some fault) }
    {
        if self.is_ended() {
            return Err(StepFault::Ended);
        }
        if self.is_full() {
            return Err(StepFault::Full);
        }
        Ok(())
    }

    /// Makes the next change of the script. The refusals come in the order of their variants; after
    /// any of them the net is unchanged. A change may come after the network has ended.
    pub fn change(&mut self) -> Result<(), ChangeFault>
        ensures changed { OnOk result (IsChangeOf self.old self.new) }
        ensures refused { IfErr result (λ fault. fault ≢ ChangeFault.Memory
            → change_fault self.old ≡ Some fault) }
        ensures err { OnErr result (self.new ≡ self.old) }
    {
        if self.is_full() {
            return Err(ChangeFault::Full);
        }
        self.next_change()
    }

    /// The next change of the script, where the history has room.
    fn next_change(&mut self) -> Result<(), ChangeFault>
        requires { length self.old.history < self.old.limit }
        ensures changed { OnOk result (IsChangeOf self.old self.new) }
        ensures refused { IfErr result (λ fault. fault ≢ ChangeFault.Memory
            → change_fault self.old ≡ Some fault) }
        ensures err { OnErr result (self.new ≡ self.old) }
    {
        steps_run();
        match make_change(&mut self.coming, &mut self.book, &mut self.history) {
            Ok(()) => Ok(()),
            Err(fault) => Err(fault),
        }
    }

    /// The step of the role at a place of the cast, where the network has not ended and the history
    /// has room.
    fn act(&mut self, place: usize, asked: Asked<'_>) -> Result<(), StepFault>
        requires there { place < length self.old.bundle.cast }
        requires numbered { IsNumberedIf asked.number asked.act.now (offers_at self.old place) }
        requires updates { (network_of self.old).updates < 4294967295 }
        requires goes { network_ended self.old.bundle.cast (network_of self.old) ≡ false }
        requires room { length self.old.history < self.old.limit }
        ensures stepped { OnOk result (IsStepAt self.old place asked.entry.act.now self.new) }
        ensures refused { IfErr result (λ fault. fault ≢ StepFault.Memory
            → fault_at self.old place asked.entry.act.now ≡ Some fault) }
        ensures err { OnErr result (self.new ≡ self.old) }
    {
        steps_run();
        marked_laws::unique_keys();
        marked_laws::mail_is_a_map();
        dioc_terms::casts_are_roles();
        process_steps::steps_show_their_acts();
        scope_leader::leaders_tell();
        let fixed = Fixed {
            alloc: self.alloc,
            cast: &self.cast,
            book: &self.book,
            bodies: &self.bodies,
        };
        match step_role(
            &fixed,
            &mut self.roles,
            &mut self.mail,
            &mut self.updates,
            &mut self.history,
            place,
            asked,
        ) {
            Ok(()) => Ok(()),
            Err(fault) => Err(fault),
        }
    }
}

impl<R: Begins> Net<R> {
    ghost use Rattle.std.specs.Prelude.{[]};
    ghost use Rattle.marked_laws.specs.Laws.{IsSound};
    ghost use Rattle.dioc_terms.specs.Plain.{plain};

    /// The network of a bundle before its first step.
    pub fn start(alloc: Global, bundle: &Bundle, limit: u64) -> Result<Net<R>, Memory>
        requires { IsSound (plain bundle.now) }
        ensures bundle { IfOk result (λ net. net.bundle ≡ plain bundle.now) }
        ensures history { IfOk result (λ net. net.history ≡ []) }
        ensures limit { IfOk result (λ net. net.limit ≡ limit) }
    {
        dioc_terms::casts_are_roles();
        let cast = bundle.cast.copy(alloc)?;
        let bodies = keep_bodies(alloc, bundle.rules.as_slice())?;
        let coming = keep_script(alloc, bundle.rules.as_slice(), bundle.script.as_slice())?;
        let book = Book::new(alloc, bundle)?;
        let roles = role_states(alloc, bundle)?;
        let of = Snapshot::of(bundle);
        let bodies = Items::new(bodies);
        let mail = Mail::new(alloc);
        let history = History::new(alloc);
        Ok(Net {
            alloc,
            of,
            cast,
            roles,
            mail,
            book,
            bodies,
            coming,
            updates: 0,
            history,
            limit,
        })
    }
}
