//! The calls of a stage that add no entry: a role asks which of its acts may come, has finished, or
//! stops the stage.

ghost use Rattle.std.specs.Prelude.{◌≡◌, ◌<◌, IfSome, length};
ghost use Rattle.stage.specs.Held.{HeldOnce};
ghost use Rattle.stage.specs.Holds.{FoundFirst, HasFinished, SawHome, SawLimit};
ghost use Rattle.stage.specs.Homes.{HomeState};
ghost use Rattle.stage.specs.Marks.{with_finished, with_stop};

use crate::faults::Why;
use crate::home::Home;
use crate::stage::Stage;
use dioc_terms::{Act, Role};
use std::sync::Wait;
use turn_lock::Seat;

impl Stage {
    ghost use Rattle.stage.specs.Stages.{IsSeatIn};
    ghost use Rattle.turn_lock.specs.Words.{view, known};

    /// Asks in one hold where the first of these acts stands whose commit isn't refused there since
    /// it may not come yet. It is none where each is refused so. Nothing is changed.
    pub fn first_ready<R: Wait>(
        &self,
        rt: &R,
        seat: Seat<Home>,
        acts: &[Act],
    ) -> (Seat<Home>, Option<usize>)
        requires of { IsSeatIn self.now seat }
        ensures of { IsSeatIn self.now result.0 }
        ensures first { FoundFirst (view seat) (view result.0) acts.now result.1 }
        ensures within { IfSome result.1 (λ at. at < length acts.now) }
        ensures held { (home : HomeState)
            × HeldOnce (known seat) (known result.0) home home }
    {
        let mut turn = self.enter(rt, seat);
        let first = turn.home().first_ready(acts);
        (self.turns.leave(turn), first)
    }

    /// Marks the seat's role, whose process has ended, as finished. Once all are, changes are
    /// refused and nobody waits any more.
    pub fn finish<R: Wait>(&self, rt: &R, seat: Seat<Home>, role: &Role) -> Seat<Home>
        requires of { IsSeatIn self.now seat }
        requires ended { HasFinished (view seat) role.now }
        ensures of { IsSeatIn self.now result }
        ensures saw { SawHome (view seat) (view result) }
        ensures marked { (home : HomeState)
            × HeldOnce (known seat) (known result) home (with_finished home role.now) }
    {
        let mut turn = self.enter(rt, seat);
        let home = turn.home();
        home.finish(role);
        let over = home.all_finished();
        let seat = self.turns.leave(turn);
        self.pulses.tell_finish(over);
        seat
    }

    /// Stops the stage: from then on each commit is refused for this, and nobody waits any more.
    /// The first mark stays. The mark of the limit asks that the seat has seen as many entries as
    /// there may be, and that the network has not ended after them.
    pub fn stop<R: Wait>(&self, rt: &R, seat: Seat<Home>, why: Why) -> Seat<Home>
        requires of { IsSeatIn self.now seat }
        requires cut { why ≡ Why.Limit → SawLimit (view seat) }
        ensures of { IsSeatIn self.now result }
        ensures saw { SawHome (view seat) (view result) }
        ensures marked { (home : HomeState)
            × HeldOnce (known seat) (known result) home (with_stop home why) }
    {
        let mut turn = self.enter(rt, seat);
        turn.home().stop(why);
        let seat = self.turns.leave(turn);
        self.pulses.tell_end();
        seat
    }
}
