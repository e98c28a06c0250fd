//! The way up from a part that has acted: the marks of the constructs around it.

ghost use Rattle.std.specs.Prelude.{◌≡◌, ◌<◌, ◌||◌, IfSome, Some, length};
ghost use Rattle.dioc_terms.specs.declared.names.Role.{Role as RoleName};
ghost use Rattle.dioc_terms.specs.Processes.{Process};
ghost use Rattle.flat_role.specs.Climbing.{IsLeft, Rises, both_kept, found, mark_then};
ghost use Rattle.flat_role.specs.KeptMarks.{meant};
ghost use Rattle.flat_role.specs.PlanMarks.{low_at, plan_layout, plan_len, plan_marks, static_at};
ghost use Rattle.flat_role.specs.Progress.{AreOf, IsOf};
ghost use Rattle.role_statuses.specs.Entering.{stop};
ghost use Rattle.role_statuses.specs.Local.{both_over, is_untouched, mark_after, over_after, walk, write};

use crate::marks::Mark;
use dioc_terms::Role;
use flat_code::{Op, Plan};

/// Writes a mark at a place: all of the construct is untouched again where it begins again.
pub(crate) fn write(plan: &Plan, marks: &mut Vec<Mark>, place: usize, mark: Mark)
    requires inside { place < plan_len plan.now }
    requires as_long { length marks.old.items ≡ plan_len plan.now }
    ensures as_long { length marks.new.items ≡ plan_len plan.now }
    ensures written { (me : RoleName) → plan_marks me plan.now marks.new.items
        ≡ write (plan_marks me plan.now marks.old.items) (low_at plan.now place) place
        (static_at plan.now place) (meant me (static_at plan.now place) mark) }
    ensures mine { (me : RoleName) → AreOf me marks.old.items → IsOf me mark
        → AreOf me marks.new.items }
{
    match mark {
        Mark::Untouched => {
            let low = plan.level(place).low;
            for at in low..place + 1 {
                marks[at] = Mark::Untouched;
            }
        }
        mark => marks[place] = mark,
    }
}

/// Writes the marks on the way up from a part that has acted: of each construct whose part has
/// ended, and of each in which nothing had been done. The answer is the first place, from the part
/// on, at which something is left to do; none where the whole has ended. Takes no memory.
pub(crate) fn climb(
    me: &Role,
    plan: &Plan,
    marks: &mut Vec<Mark>,
    place: usize,
    over: bool,
) -> Option<usize>
    requires inside { place < plan_len plan.now }
    requires as_long { length marks.old.items ≡ plan_len plan.now }
    ensures as_long { length marks.new.items ≡ plan_len plan.now }
    ensures walked { plan_marks me.now plan.now marks.new.items
        ≡ walk me.now (plan_layout plan.now) (plan_len plan.now)
        (plan_marks me.now plan.now marks.old.items) place over }
    ensures stop { result ≡ stop me.now (plan_layout plan.now) over (plan_len plan.now)
        (plan_marks me.now plan.now marks.old.items) place }
    ensures inside { IfSome result (λ at. at < plan_len plan.now) }
    ensures mine { AreOf me.now marks.old.items → AreOf me.now marks.new.items }
{
    let mut at = place;
    let mut ended = over;
    let mut left = None;
    while let Some((up, up_ended)) = rise(plan, marks, at, ended) {
        left = first_left(left, at, ended);
        at = up;
        ended = up_ended;
    }
    first_left(left, at, ended)
}

/// The place found before, or this one, where something is left to do there.
fn first_left(before: Option<usize>, at: usize, over: bool) -> Option<usize>
    ensures { result ≡ found before at over }
{
    match before {
        None if !over => Some(at),
        _ => before,
    }
}

/// A step up from the part at a place: writes the mark of the construct around it, where the part
/// has ended or nothing had been done in the construct. The answer is the construct's place, and
/// whether it has ended.
fn rise(plan: &Plan, marks: &mut Vec<Mark>, at: usize, over: bool) -> Option<(usize, bool)>
    requires inside { at < plan_len plan.now }
    requires as_long { length marks.old.items ≡ plan_len plan.now }
    ensures as_long { length marks.new.items ≡ plan_len plan.now }
    ensures rises { (me : RoleName) → Rises me (plan_layout plan.now)
        (plan_marks me plan.now marks.old.items) (plan_marks me plan.now marks.new.items) at over
        result }
    ensures above { IfSome result (λ above. at < above.0) }
    ensures inside { IfSome result (λ above. above.0 < plan_len plan.now) }
    ensures mine { (me : RoleName) → AreOf me marks.old.items → AreOf me marks.new.items }
{
    let up = plan.level(at).parent;
    if up >= plan.places() {
        return None;
    }
    let mark = &marks[up];
    if !goes_up(over, mark) {
        return None;
    }
    let (new, ended) = after_part(plan, up, at + 1 != up, over, mark);
    if let Some(mark) = new {
        write(plan, marks, up, mark);
    }
    Some((up, ended))
}

/// Whether a part that has acted changes the construct around it, which has this mark.
fn goes_up(over: bool, mark: &Mark) -> bool
    ensures { (me : RoleName) (P : Process)
        → result ≡ (over || is_untouched (meant me P mark.now)) }
{
    match mark {
        Mark::Untouched => true,
        _ => over,
    }
}

/// What a construct comes to as a part of it has ended, or has acted first: its new mark, and
/// whether it has ended. It gets none where its mark stays, unless nothing had been done in it: it
/// begins again then.
fn after_part(plan: &Plan, up: usize, first: bool, over: bool, mark: &Mark) -> (Option<Mark>, bool)
    requires { up < plan_len plan.now }
    ensures marked { (me : RoleName) → mark_then me (static_at plan.now up) result.0 mark.now
        ≡ mark_after me (static_at plan.now up) first over
        (meant me (static_at plan.now up) mark.now) }
    ensures mine { (me : RoleName) → IfSome result.0 (IsOf me) }
    ensures left { (me : RoleName) → IsLeft me (static_at plan.now up) result.0 mark.now }
    ensures over { (me : RoleName) → result.1 ≡ over_after me (static_at plan.now up) first over
        (meant me (static_at plan.now up) mark.now) }
{
    match plan.code.op_at(up) {
        Op::Seq { second, .. } => match (first, over) {
            (true, true) => (Some(Mark::Second), plan.level(*second).ended),
            (true, false) => (Some(Mark::First), false),
            (false, _) => (Some(Mark::Second), over),
        },
        Op::Par { left, right } => match mark {
            Mark::Untouched => {
                let left = plan.level(*left).ended;
                let right = plan.level(*right).ended;
                beside(first, over, left, right)
            }
            Mark::Both(left, right) => beside(first, over, *left, *right),
            _ => (None, over),
        },
        Op::WhileLead { others, .. } => match others.is_empty() {
            true => (Some(Mark::Untouched), false),
            false => (Some(Mark::Gathering(0)), false),
        },
        Op::ScopeLead { others, .. } => match others.is_empty() {
            true => (Some(Mark::Finished), true),
            false => (Some(Mark::Gathering(0)), false),
        },
        Op::WhileFollow { .. } | Op::ScopeFollow { .. } => (Some(Mark::Ending), false),
        _ => match mark {
            Mark::Untouched => (Some(Mark::Untouched), over),
            _ => (None, over),
        },
    }
}

/// What a parallel comes to, of whose parts these had ended, as a part of it comes to this.
fn beside(first: bool, over: bool, left: bool, right: bool) -> (Option<Mark>, bool)
    ensures mark { result.0 ≡ Some (both_kept first over left right) }
    ensures over { result.1 ≡ both_over first over left right }
{
    let (left, right) = if first { (over, right) } else { (left, over) };
    (Some(Mark::Both(left, right)), left && right)
}
