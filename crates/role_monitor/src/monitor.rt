//! A monitor of one role.

ghost use Rattle.std.specs.Prelude.{◌≡◌, ◌<◌, ◌++◌, [], ◌∷◌, suc, length, List, None, Some, true, false, IfErr, IfOk, OnErr, OnOk};
ghost use Rattle.dioc_terms.specs.declared.entries.Entry.{Entry as OneEntry};
ghost use Rattle.dioc_terms.specs.declared.names.Role.{Role as OneRole};
ghost use Rattle.dioc_terms.specs.Equality.{role_eq};
ghost use Rattle.dioc_terms.specs.Messages.{act_of, doer};
ghost use Rattle.dioc_terms.specs.Plain.{PlainBundle, plain};
ghost use Rattle.marked_laws.specs.Laws.{IsSound};
ghost use Rattle.flat_role.specs.FlatStates.{local_of};
ghost use Rattle.role_monitor.specs.Judging.{HoldsScript};
ghost use Rattle.role_monitor.specs.Monitoring.{mon_start, own_entries};
ghost use Rattle.rule_book.specs.KeptBooks.{book_of};
ghost use Rattle.role_monitor.specs.Monitors.{Deviated, HasRead, MayRead, ReadsOn, Refuses, StaysRead};

use crate::entries::act_of;
use crate::judging::judge;
use crate::others::believe;
use crate::scenes::Scene;
use crate::script::see_change;
use crate::updates::Update;
use dioc_terms::{Act, Bundle, Entry, Memory, Role, give_up};
use flat_role::FlatRole;
use net_core::opening_state;
use role_mailbox::Mail;
use rule_book::Book;
use std::alloc::Global;
use thiserror::Error;

/// Why an entry isn't taken.
#[derive(Clone, Copy, Debug, PartialEq, Eq, Error)]
pub enum FeedFault {
    /// The role deviates at this entry, by its number from 1.
    #[error("the role deviates at entry {0}")]
    Deviates(u64),
    /// Memory ran out.
    #[error("out of memory")]
    Memory,
}

/// A monitor of one role of a bundle, after some entries of a full trace.
pub struct Monitor<'a> {
    alloc: Global,
    bundle: &'a Bundle,
    role: &'a Role,
    state: FlatRole,
    mail: Mail,
    book: Book,
    changes: usize,
    updates: Vec<Update>,
    fed: u64,
    judged: u64,
}

impl<'a> Drop for Monitor<'a> {
    fn drop(self) {
        let Monitor {
            alloc: _,
            bundle: _,
            role: _,
            state: _,
            mail: _,
            book: _,
            changes: _,
            updates: _,
            fed: _,
            judged: _,
        } = self;
    }
}

impl<'a> Monitor<'a> {
    /// The monitor of a role of a bundle, before the first entry.
    pub fn new(alloc: Global, bundle: &'a Bundle, role: &'a Role) -> Result<Monitor<'a>, Memory>
        requires { IsSound (plain bundle.now) }
        ensures { IfOk result (λ monitor. HasRead (plain bundle.now) role.now monitor []) }
    {
        dioc_terms::casts_are_roles();
        let state = opening_state(alloc, bundle, role)?;
        match Book::new(alloc, bundle) {
            Ok(book) => Ok(Monitor::begin(alloc, bundle, role, state, book)),
            Err(fault) => give_up(state, fault),
        }
    }

    /// The monitor with the role's opening state and the opening book.
    fn begin(
        alloc: Global,
        bundle: &'a Bundle,
        role: &'a Role,
        state: FlatRole,
        book: Book,
    ) -> Monitor<'a>
        requires sound { IsSound (plain bundle.now) }
        requires local { local_of state ≡ (mon_start (plain bundle.now) role.now).local }
        requires book { book_of book ≡ (mon_start (plain bundle.now) role.now).book }
        requires script { HoldsScript (plain bundle.now) book 0 }
        ensures { HasRead (plain bundle.now) role.now result [] }
    {
        let mail = Mail::new(alloc);
        let updates = Vec::new(alloc);
        Monitor {
            alloc,
            bundle,
            role,
            state,
            mail,
            book,
            changes: 0,
            updates,
            fed: 0,
            judged: 0,
        }
    }

    /// How many entries of the role were read. It takes no memory.
    pub fn judged(&self) -> u64
        ensures { (b : PlainBundle) (r : OneRole) (entries : List OneEntry)
            → HasRead b r self.now entries → result ≡ length (own_entries r entries) }
    {
        self.judged
    }

    /// Reads the next entry of the trace. The entries of the other roles are believed. Of the
    /// role's own the error is `Deviates` exactly where it isn't a step of the role, with the
    /// number of the entry from 1. After an error the monitor has read what it had read before.
    pub fn feed(&mut self, entry: &Entry) -> Result<(), FeedFault>
        requires { (b : PlainBundle) × (r : OneRole) × (entries : List OneEntry)
            × HasRead b r self.old entries × (length entries < 18446744073709551615) }
        ensures read { (b : PlainBundle) (r : OneRole) (entries : List OneEntry)
            → HasRead b r self.old entries
            → OnOk result (HasRead b r self.new (entries ++ entry.now ∷ [])) }
        ensures deviates { (b : PlainBundle) (r : OneRole) (entries : List OneEntry)
            → HasRead b r self.old entries → IfErr result (Deviated b r entries entry.now) }
        ensures same { (b : PlainBundle) (r : OneRole) (entries : List OneEntry)
            → HasRead b r self.old entries → OnErr result (HasRead b r self.new entries) }
    {
        match entry.doer() {
            None => {
                self.see(entry);
                Ok(())
            }
            Some(role) => {
                if *role == *self.role {
                    return self.judge(entry);
                }
                match self.believe(entry) {
                    Ok(()) => Ok(()),
                    Err(_) => Err(FeedFault::Memory),
                }
            }
        }
    }

    /// Reads a change.
    fn see(&mut self, entry: &Entry)
        requires read { MayRead self.old }
        requires change { doer entry.now ≡ None }
        ensures { (b : PlainBundle) (r : OneRole) (entries : List OneEntry)
            → HasRead b r self.old entries → HasRead b r self.new (entries ++ entry.now ∷ []) }
    {
        see_change(self.bundle, &mut self.changes, &mut self.book, entry);
        self.fed += 1;
    }

    /// Reads an entry of another role.
    fn believe(&mut self, entry: &Entry) -> Result<(), Memory>
        requires read { MayRead self.old }
        requires other { (q : OneRole) × (doer entry.now ≡ Some q)
            × (role_eq q self.old.role.now ≡ false) }
        ensures read { ReadsOn result self.old entry.now self.new }
        ensures same { StaysRead result self.old self.new }
    {
        dioc_terms::mentions_are_roles();
        scope_leader::leaders_tell();
        marked_laws::mail_is_a_map();
        match believe(
            self.alloc,
            self.bundle,
            self.role,
            &self.book,
            &mut self.updates,
            &mut self.mail,
            entry,
        ) {
            Ok(()) => {
                self.fed += 1;
                Ok(())
            }
            Err(fault) => Err(fault),
        }
    }

    /// Reads an entry of the role.
    fn judge(&mut self, entry: &Entry) -> Result<(), FeedFault>
        requires read { MayRead self.old }
        requires own { (q : OneRole) × (doer entry.now ≡ Some q)
            × (role_eq q self.old.role.now ≡ true) }
        ensures read { ReadsOn result self.old entry.now self.new }
        ensures deviates { Refuses result self.old entry.now }
        ensures same { StaysRead result self.old self.new }
    {
        match act_of(self.alloc, entry) {
            Ok(act) => self.judge_act(entry, act),
            Err(_) => Err(FeedFault::Memory),
        }
    }

    /// Reads an entry of the role, which shows this act.
    fn judge_act(&mut self, entry: &Entry, act: Act) -> Result<(), FeedFault>
        requires read { MayRead self.old }
        requires own { (q : OneRole) × (doer entry.now ≡ Some q)
            × (role_eq q self.old.role.now ≡ true) }
        requires act { act_of entry.now ≡ Some act }
        ensures read { ReadsOn result self.old entry.now self.new }
        ensures deviates { Refuses result self.old entry.now }
        ensures same { StaysRead result self.old self.new }
    {
        scope_leader::leaders_tell();
        marked_laws::mail_is_a_map();
        let scene = Scene {
            alloc: self.alloc,
            bundle: self.bundle,
            me: self.role,
            book: &self.book,
            entry,
        };
        match judge(
            &scene,
            &mut self.updates,
            &mut self.mail,
            &mut self.state,
            act,
        ) {
            Ok(true) => {
                self.fed += 1;
                self.judged += 1;
                Ok(())
            }
            Ok(false) => Err(FeedFault::Deviates(self.fed + 1)),
            Err(_) => Err(FeedFault::Memory),
        }
    }
}
