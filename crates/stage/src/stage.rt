//! The stage: the calls by which threads of roles share one history.

ghost use Rattle.std.specs.Prelude.{◌≡◌, ◌≢◌, ◌<◌, ◌≤◌, All, true, IfErr, IfOk, OnOk, Some, length, map};
ghost use Rattle.dioc_terms.specs.declared.entries.Act.TheVariants as acts;
ghost use Rattle.dioc_terms.specs.Plain.{plain};
ghost use Rattle.dioc_terms.specs.Processes.{load};
ghost use Rattle.marked_laws.specs.Laws.{IsSound};
ghost use Rattle.process_steps.specs.Steps.{Alone, Got, Puts, Takes};
ghost use Rattle.stage.specs.declared.marks.Marks.{Marks};
ghost use Rattle.stage.specs.Faults.{role_fault, take_fault};
ghost use Rattle.stage.specs.Held.{AddedOnce, IsNewWith, RefusedOnce};
ghost use Rattle.stage.specs.Homes.{IsSoundHome, opening_home};
ghost use Rattle.stage.specs.Marks.{MarksGrow, marks_of};
ghost use Rattle.stage.specs.Roles.{is_input, is_pick, is_assignment};
ghost use Rattle.stage.specs.Seats.{CanCommit, CanCommitOwn, CanReceive, Committed, CommittedOwn, IsClosed, RefusedFor, StillStands, opening_views};
ghost use Rattle.turn_lock.specs.Items.{BeginsWith};
ghost use Rattle.turn_lock.specs.Views.{entered, entered_known};

use crate::ending::place_of;
use crate::faults::CommitFault;
use crate::home::Home;
use crate::laws::{deeds_move, others_leave_alone};
use crate::pulses::Pulses;
use crate::seating::make_seats;
use dioc_terms::{Bundle, Entry, Key, Memory, Name, Payload};
use net_core::steps_run;
use std::alloc::Global;
use std::sync::Wait;
use trace_book::History;
use turn_lock::{Missing, Seat, Turn, Turns};

/// What the threads of roles share, under a lock of turns. Each role has a seat, and so has the
/// feeder of changes.
pub struct Stage {
    pub(crate) turns: Turns<Home>,
    pub(crate) pulses: Pulses,
}

impl Drop for Stage {
    fn drop(self) {
        let Stage {
            turns: _,
            pulses: _,
        } = self;
    }
}

impl Stage {
    ghost use Rattle.stage.specs.Stages.{IsSameStage, IsSeatIn};
    ghost use Rattle.turn_lock.specs.Words.{view, turn_view, known, turn_known, claim_of, FirstIs, IsTurnOf};

    /// The stage of a bundle before its first entry, for a history of at most `limit` entries. Its
    /// seats are one for each role, in the cast's order, and the feeder's last; they are numbered
    /// from 0.
    pub fn new(
        alloc: Global,
        bundle: &Bundle,
        limit: u64,
    ) -> Result<(Stage, Vec<Seat<Home>>), Memory>
        requires sound { IsSound (plain bundle.now) }
        requires small { limit ≤ 4294967295 }
        ensures of { IfOk result (λ made. All (λ s. IsSeatIn made.0 s) made.1.items) }
        ensures views { IfOk result (λ made. map view made.1.items
            ≡ opening_views (plain bundle.now, limit) (length bundle.now.cast)) }
        ensures knows { IfOk result (λ made. All (λ s.
            IsNewWith (marks_of (opening_home (plain bundle.now) limit)) (known s))
            made.1.items) }
    {
        let pulses = Pulses::new(alloc, &bundle.cast)?;
        let home = Home::start(alloc, bundle, limit)?;
        let Ok((turns, first)) = Turns::new(alloc, home) else {
            return Err(Memory);
        };
        let seats = make_seats(alloc, &turns, first, bundle.cast.as_slice())?;
        Ok((Stage { turns, pulses }, seats))
    }

    /// Waits for the turn. The seat's role stands in what is found where it stood.
    pub(crate) fn enter<R: Wait>(&self, rt: &R, seat: Seat<Home>) -> Turn<Home>
        requires of { IsSeatIn self.now seat }
        ensures of { IsTurnOf self.now.turns result }
        ensures view { turn_view result ≡ entered (view seat) result.home.history }
        ensures knows { turn_known result
            ≡ entered_known (known seat) result.home.history (marks_of result.home) }
        ensures grown { (m : Marks) → (known seat).at ≡ Some m
            → MarksGrow m (marks_of result.home) }
        ensures base { (view seat).base ≡ Some (result.home.bundle, result.home.limit) }
        ensures sound { IsSoundHome result.home }
        ensures still { StillStands (view seat) result.home.history }
    {
        others_leave_alone();
        let mut turn = self.turns.enter(rt, seat);
        let home = turn.home();
        home.is_sound();
        turn
    }

    /// Puts a message of the seat's role. After a refusal nothing is changed, and the key and the
    /// payload are dropped.
    pub fn commit_put<R: Wait>(
        &self,
        rt: &R,
        seat: Seat<Home>,
        key: Key,
        payload: Payload,
    ) -> (Seat<Home>, Result<(), CommitFault>)
        requires of { IsSeatIn self.now seat }
        requires can { CanCommit (view seat) key.from (acts.Put key) Alone
            (Puts key (load payload)) }
        ensures of { IsSeatIn self.now result.0 }
        ensures done { IfOk result.1 (λ _. Committed role_fault (view seat) (view result.0)
            key.from (acts.Put key) Alone (Puts key (load payload))) }
        ensures refused { IfErr result.1
            (λ f. RefusedFor role_fault (view seat) (view result.0) f) }
        ensures added { OnOk result.1 (AddedOnce role_fault (known seat) (known result.0)) }
        ensures judged { IfErr result.1
            (λ f. RefusedOnce role_fault (known seat) (known result.0) f) }
    {
        deeds_move();
        let receiver = place_of(self.pulses.cast(), &key.to);
        let mut turn = self.enter(rt, seat);
        match turn.home().put(key, payload) {
            Ok(()) => {
                let due = turn.home().is_due();
                let seat = self.turns.leave_with(turn);
                self.pulses.tell_put(receiver, due);
                (seat, Ok(()))
            }
            Err(fault) => (self.turns.leave(turn), Err(fault)),
        }
    }

    /// Takes a message for the seat's role: the one that is pending for the key. After a refusal
    /// nothing is changed, and the name of the variable is dropped.
    pub fn commit_take<R: Wait>(
        &self,
        rt: &R,
        seat: Seat<Home>,
        key: &Key,
        var: Option<Name>,
    ) -> (Seat<Home>, Result<Payload, CommitFault>)
        requires of { IsSeatIn self.now seat }
        requires can { CanReceive (view seat) key.now.to key.now var }
        ensures of { IsSeatIn self.now result.0 }
        ensures done { IfOk result.1 (λ payload. Committed (take_fault key.now) (view seat)
            (view result.0) key.now.to (acts.Take key.now) (Got (load payload))
            (Takes key.now var (load payload))) }
        ensures refused { IfErr result.1
            (λ f. RefusedFor (take_fault key.now) (view seat) (view result.0) f) }
        ensures added { OnOk result.1
            (AddedOnce (take_fault key.now) (known seat) (known result.0)) }
        ensures judged { IfErr result.1
            (λ f. RefusedOnce (take_fault key.now) (known seat) (known result.0) f) }
    {
        deeds_move();
        steps_run();
        marked_laws::unique_keys();
        marked_laws::mail_is_a_map();
        process_steps::offers_are_steps();
        let receiver = place_of(self.pulses.cast(), &key.to);
        let mut turn = self.enter(rt, seat);
        match turn.home().take(key, var) {
            Ok(payload) => {
                let due = turn.home().is_due();
                let seat = self.turns.leave_with(turn);
                self.pulses.tell_take(receiver, due);
                (seat, Ok(payload))
            }
            Err(fault) => (self.turns.leave(turn), Err(fault)),
        }
    }

    /// Adds what the seat's role set. After a refusal nothing is changed, and the entry is dropped.
    pub fn commit_set<R: Wait>(
        &self,
        rt: &R,
        seat: Seat<Home>,
        entry: Entry,
    ) -> (Seat<Home>, Result<(), CommitFault>)
        requires of { IsSeatIn self.now seat }
        requires set { is_assignment entry ≡ true }
        requires can { CanCommitOwn (view seat) entry }
        ensures of { IsSeatIn self.now result.0 }
        ensures done { IfOk result.1
            (λ _. CommittedOwn role_fault (view seat) (view result.0) entry) }
        ensures refused { IfErr result.1
            (λ f. RefusedFor role_fault (view seat) (view result.0) f) }
        ensures added { OnOk result.1 (AddedOnce role_fault (known seat) (known result.0)) }
        ensures judged { IfErr result.1
            (λ f. RefusedOnce role_fault (known seat) (known result.0) f) }
    {
        self.commit_own(rt, seat, entry)
    }

    /// Adds what the seat's role read of its inputs. After a refusal nothing is changed, and the
    /// entry is dropped.
    pub fn commit_input<R: Wait>(
        &self,
        rt: &R,
        seat: Seat<Home>,
        entry: Entry,
    ) -> (Seat<Home>, Result<(), CommitFault>)
        requires of { IsSeatIn self.now seat }
        requires input { is_input entry ≡ true }
        requires can { CanCommitOwn (view seat) entry }
        ensures of { IsSeatIn self.now result.0 }
        ensures done { IfOk result.1
            (λ _. CommittedOwn role_fault (view seat) (view result.0) entry) }
        ensures refused { IfErr result.1
            (λ f. RefusedFor role_fault (view seat) (view result.0) f) }
        ensures added { OnOk result.1 (AddedOnce role_fault (known seat) (known result.0)) }
        ensures judged { IfErr result.1
            (λ f. RefusedOnce role_fault (known seat) (known result.0) f) }
    {
        self.commit_own(rt, seat, entry)
    }

    /// Adds which branch the seat's role picked. After a refusal nothing is changed, and the entry
    /// is dropped.
    pub fn commit_pick<R: Wait>(
        &self,
        rt: &R,
        seat: Seat<Home>,
        entry: Entry,
    ) -> (Seat<Home>, Result<(), CommitFault>)
        requires of { IsSeatIn self.now seat }
        requires pick { is_pick entry ≡ true }
        requires can { CanCommitOwn (view seat) entry }
        ensures of { IsSeatIn self.now result.0 }
        ensures done { IfOk result.1
            (λ _. CommittedOwn role_fault (view seat) (view result.0) entry) }
        ensures refused { IfErr result.1
            (λ f. RefusedFor role_fault (view seat) (view result.0) f) }
        ensures added { OnOk result.1 (AddedOnce role_fault (known seat) (known result.0)) }
        ensures judged { IfErr result.1
            (λ f. RefusedOnce role_fault (known seat) (known result.0) f) }
    {
        self.commit_own(rt, seat, entry)
    }

    /// Adds what the seat's role did alone.
    fn commit_own<R: Wait>(
        &self,
        rt: &R,
        seat: Seat<Home>,
        entry: Entry,
    ) -> (Seat<Home>, Result<(), CommitFault>)
        requires of { IsSeatIn self.now seat }
        requires can { CanCommitOwn (view seat) entry }
        ensures of { IsSeatIn self.now result.0 }
        ensures done { IfOk result.1
            (λ _. CommittedOwn role_fault (view seat) (view result.0) entry) }
        ensures refused { IfErr result.1
            (λ f. RefusedFor role_fault (view seat) (view result.0) f) }
        ensures added { OnOk result.1 (AddedOnce role_fault (known seat) (known result.0)) }
        ensures judged { IfErr result.1
            (λ f. RefusedOnce role_fault (known seat) (known result.0) f) }
    {
        deeds_move();
        process_steps::steps_show_their_acts();
        let mut turn = self.enter(rt, seat);
        match turn.home().add(entry) {
            Ok(()) => {
                let due = turn.home().is_due();
                let seat = self.turns.leave_with(turn);
                self.pulses.tell_entry(due);
                (seat, Ok(()))
            }
            Err(fault) => (self.turns.leave(turn), Err(fault)),
        }
    }

    /// Waits until more than `count` holds that changed what lies under the lock have ended. No
    /// clause rests on it.
    pub fn wait_past<R: Wait>(&self, rt: &R, count: u64) {
        self.pulses.whole().wait_past(rt, count);
    }

    /// How many holds that changed what lies under the lock have ended. No clause rests on it.
    pub fn holds<R: Wait>(&self, rt: &R) -> u64 {
        self.pulses.whole().count()
    }

    /// Waits until more than `count` holds that concern the role at this place of the cast, or past
    /// the roles the feeder, have ended. No clause rests on it.
    pub fn wait_past_at<R: Wait>(&self, rt: &R, place: usize, count: u64) {
        self.pulses.at(place).wait_past(rt, count);
    }

    /// How many holds that concern the role at this place of the cast, or past the roles the
    /// feeder, have ended: puts of messages for the role and changes; for the feeder entries after
    /// which a change is due. No clause rests on it.
    pub fn holds_at(&self, place: usize) -> u64 {
        self.pulses.at(place).count()
    }

    /// Waits while no message is pending for the role at this place of the cast, until a hold that
    /// concerns it has ended. No clause rests on it.
    pub fn wait_for_mail<R: Wait>(&self, rt: &R, place: usize) {
        self.pulses.wait_for_mail(rt, place);
    }

    /// Ends the stage and gives its history, where the seats are all that were made, in any order.
    /// The history begins with what each seat has seen. Else the stage and the seats come back.
    pub fn close(self, seats: Vec<Seat<Home>>) -> Result<History, (Stage, Vec<Seat<Home>>)>
        requires of { All (λ s. IsSeatIn self s) seats.items }
        ensures missing { IfErr result (λ back.
            All (λ s. (view s).made ≢ length seats.items) seats.items) }
        ensures back { IfErr result (λ back.
            IsSameStage back.0 self × (back.1.items ≡ seats.items)) }
        ensures some { IfOk result (λ _. 0 < length seats.items) }
        ensures closed { IfOk result (λ history.
            FirstIs (λ v. IsClosed v history.entries (map claim_of seats.items)) seats.items) }
        ensures begins { IfOk result (λ history.
            All (λ s. BeginsWith history.entries (view s).seen) seats.items) }
    {
        let Stage { turns, pulses } = self;
        match turns.close(seats) {
            Ok(home) => {
                drop(pulses);
                Ok(home.into_history())
            }
            Err(Missing { turns, seats }) => Err((Stage { turns, pulses }, seats)),
        }
    }
}
