//! The commits of a stage that ask its book: the begin of a scope, and the script's next change.

ghost use Rattle.std.specs.Prelude.{◌≡◌, IfErr, IfOk, OnOk};
ghost use Rattle.dioc_terms.specs.KeptStores.{store_of};
ghost use Rattle.stage.specs.Faults.{feeder_fault, role_fault};
ghost use Rattle.stage.specs.Held.{AddedOnce, RefusedOnce};
ghost use Rattle.stage.specs.Holds.{CanCommitScope, CommittedChange, CommittedScope, IsFeeder};
ghost use Rattle.stage.specs.Seats.{RefusedFor};

use crate::faults::CommitFault;
use crate::home::Home;
use crate::laws::deeds_move;
use crate::stage::Stage;
use dioc_terms::{ScopeHead, Store};
use std::sync::Wait;
use turn_lock::Seat;

impl Stage {
    ghost use Rattle.stage.specs.Stages.{IsSeatIn};
    ghost use Rattle.turn_lock.specs.Words.{view, known};

    /// Begins a scope for its leader, whose store this is. The answer is the rule that the book
    /// chooses in this hold, by its number, and the number of the update; `None` where the book
    /// chooses none. After a refusal nothing is changed.
    pub fn commit_scope<R: Wait>(
        &self,
        rt: &R,
        seat: Seat<Home>,
        head: &ScopeHead,
        store: &Store,
    ) -> (Seat<Home>, Result<Option<(u32, u32)>, CommitFault>)
        requires of { IsSeatIn self.now seat }
        requires can { CanCommitScope (view seat) head.now (store_of store.now) }
        ensures of { IsSeatIn self.now result.0 }
        ensures done { IfOk result.1 (λ update. CommittedScope (view seat) (view result.0)
            head.now (store_of store.now) update) }
        ensures refused { IfErr result.1
            (λ f. RefusedFor role_fault (view seat) (view result.0) f) }
        ensures added { OnOk result.1 (AddedOnce role_fault (known seat) (known result.0)) }
        ensures judged { IfErr result.1
            (λ f. RefusedOnce role_fault (known seat) (known result.0) f) }
    {
        deeds_move();
        process_steps::offers_are_steps();
        let mut turn = self.enter(rt, seat);
        match turn.home().scope(head, store) {
            Ok(update) => {
                let due = turn.home().is_due();
                let seat = self.turns.leave_with(turn);
                self.pulses.tell_entry(due);
                (seat, Ok(update))
            }
            Err(fault) => (self.turns.leave(turn), Err(fault)),
        }
    }

    /// Makes the script's next change, for the feeder. After a refusal nothing is changed.
    pub fn commit_change<R: Wait>(
        &self,
        rt: &R,
        seat: Seat<Home>,
    ) -> (Seat<Home>, Result<(), CommitFault>)
        requires of { IsSeatIn self.now seat }
        requires feeder { IsFeeder (view seat) }
        ensures of { IsSeatIn self.now result.0 }
        ensures done { OnOk result.1 (CommittedChange (view seat) (view result.0)) }
        ensures refused { IfErr result.1
            (λ f. RefusedFor feeder_fault (view seat) (view result.0) f) }
        ensures added { OnOk result.1 (AddedOnce feeder_fault (known seat) (known result.0)) }
        ensures judged { IfErr result.1
            (λ f. RefusedOnce feeder_fault (known seat) (known result.0) f) }
    {
        let mut turn = self.enter(rt, seat);
        match turn.home().change() {
            Ok(()) => {
                turn.home().is_sound();
                let seat = self.turns.leave_with(turn);
                self.pulses.tell_change();
                (seat, Ok(()))
            }
            Err(fault) => (self.turns.leave(turn), Err(fault)),
        }
    }
}
