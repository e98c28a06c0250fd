//! How far a role over code has come: a mark for each place, and the places that can act.

ghost use Rattle.std.specs.Prelude.{◌≡◌, IfOk, replicate};
ghost use Rattle.flat_role.specs.declared.marks.Mark.TheVariants as kept;

use crate::entering::enter;
use crate::marks::Mark;
use crate::relisting::add_acts;
use crate::steps::Chosen;
use crate::updates::place_offers;
use dioc_terms::{Act, Memory, Role, give_up};
use flat_code::Plan;
use std::alloc::Global;

/// How far each construct of the code has come, and the places that can act, from left to right.
#[cycle(mark)]
#[derive(Drop)]
pub(crate) struct Progress {
    pub marks: Vec<Mark>,
    pub active: Vec<usize>,
    /// The places that come in the place of one that acted: kept for its room.
    pub fresh: Vec<usize>,
    /// The act that it is ready for.
    pub chosen: Option<Chosen>,
}

impl Progress {
    ghost use Rattle.std.specs.Prelude.{◌≡◌, false, true, IfOk, None, Some, get_or};
    ghost use Rattle.std.specs.Option.{ForSome, is_some};
    ghost use Rattle.flat_code.specs.Codes.{process_of};
    ghost use Rattle.flat_role.specs.declared.steps.Chosen.{Chosen as OneChosen};
    ghost use Rattle.flat_role.specs.Progress.{IsFound, IsProgress, runs_by};
    ghost use Rattle.flat_role.specs.Updates.{deepest};
    ghost use Rattle.process_steps.specs.Steps.{ended, is_offered, offers};

    /// Nothing was done yet. It takes memory by the size of the process.
    pub(crate) fn new(alloc: Global, me: &Role, plan: &Plan) -> Result<Progress, Memory>
        ensures is { IfOk result (IsProgress me.now plan.now) }
        ensures runs { IfOk result (λ progress. runs_by me.now plan.now progress
            ≡ process_of plan.now.code) }
        ensures shallow { IfOk result (λ progress. deepest progress.marks.items ≡ 0) }
        ensures unready { IfOk result (λ progress. progress.chosen ≡ None) }
    {
        let places = plan.places();
        let marks = untouched(alloc, places)?;
        let mut active = Vec::with_capacity(alloc, places)?;
        enter(me, plan, marks.as_slice(), plan.code.start, &mut active);
        match Vec::with_capacity(alloc, places) {
            Ok(fresh) => Ok(Progress {
                marks,
                active,
                fresh,
                chosen: None,
            }),
            Err(_) => give_up((marks, active), Memory),
        }
    }

    /// The acts that the process offers, from left to right.
    pub(crate) fn acts(&self, alloc: Global, me: &Role, plan: &Plan) -> Result<Vec<Act>, Memory>
        requires { IsProgress me.now plan.now self.now }
        ensures { IfOk result (λ acts. acts.items
            ≡ offers me.now (runs_by me.now plan.now self.now)) }
    {
        let mut acts = Vec::new(alloc);
        add_acts(self, alloc, me, plan, 0, self.active.len(), &mut acts)?;
        Ok(acts)
    }

    /// Where the first place that offers the act stands among those that can act. There is none
    /// exactly where the process doesn't offer the act.
    #[cycle(find)]
    pub(crate) fn find(&self, me: &Role, plan: &Plan, act: &Act) -> Option<usize>
        requires { IsProgress me.now plan.now self.now }
        ensures found { ForSome result (λ at. IsFound me.now plan.now self.now act.now at
            (get_or self.now.active.items at 0)) }
        ensures none { result ≡ None → is_offered act.now
            (offers me.now (runs_by me.now plan.now self.now)) ≡ false }
    {
        let marks = self.marks.as_slice();
        for at in 0..self.active.len() {
            let place = self.active[at];
            if place_offers(me, plan, marks, place, act) {
                return Some(at);
            }
        }
        None
    }

    /// Where the place of the act that it is ready for stands among those that can act.
    pub(crate) fn chosen_place(&self) -> usize
        requires { is_some self.now.chosen ≡ true }
        ensures { (chosen : OneChosen) → self.now.chosen ≡ Some chosen → result ≡ chosen.at }
    {
        match &self.chosen {
            Some(chosen) => chosen.at,
            None => unreachable!(),
        }
    }

    /// Whether nothing is left to do.
    pub(crate) fn is_done(&self, me: &Role, plan: &Plan) -> bool
        requires { IsProgress me.now plan.now self.now }
        ensures { result ≡ ended (runs_by me.now plan.now self.now) }
    {
        self.active.is_empty()
    }
}

/// So many marks of places where nothing was done.
fn untouched(alloc: Global, places: usize) -> Result<Vec<Mark>, Memory>
    ensures { IfOk result (λ marks. marks.items ≡ replicate places kept.Untouched) }
{
    let mut marks = Vec::with_capacity(alloc, places)?;
    for _ in 0..places {
        marks.push(Mark::Untouched)?;
    }
    Ok(marks)
}
