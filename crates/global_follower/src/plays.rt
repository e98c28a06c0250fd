//! How an entry is played by what is left of a choreography.

ghost use Rattle.std.specs.Prelude.{◌≡◌, ◌&&◌, not, true, false, None, Some, IfOk, OnErr};
ghost use Rattle.dioc_terms.specs.Attempts.{under};
ghost use Rattle.dioc_terms.specs.Expressions.{expression};
ghost use Rattle.dioc_terms.specs.Terms.{term, roles_in, is_in};
ghost use Rattle.global_follower.specs.declared.effects.Effect.TheVariants as effects;
ghost use Rattle.global_follower.specs.KeptRunning.{flying, marked, part_term, running};
ghost use Rattle.global_follower.specs.Playing.{attempt_if, attempt_of, beside, is_branching, is_sequence, is_whole, plays_in, plays_itself};
ghost use Rattle.global_steps.specs.Follow.{is_doer_due};
ghost use Rattle.global_steps.specs.Running.{light, started};
ghost use Rattle.global_steps.specs.Running as runs;

use crate::books::PlainBook;
use crate::effects::Effect;
use crate::rules::RuleList;
use crate::running::{
    Flight, Loop, Marks, Message, Part, Running, is_doer_due, is_empty, is_ended, is_light, is_skip,
};
use crate::scopes::play_scope;
use crate::shown::{input_value, is_take, picked, put_value, set_value};
use crate::stores::Stores;
use dioc_terms::{Choreo, Entry, Expr, Index, Memory, Name, Role, Value, give_up, new_box};
use std::alloc::Global;

/// What an entry does, and what the part that plays it becomes.
#[derive(Drop)]
pub(crate) struct Played<'a> {
    pub effect: Effect,
    pub left: Running<'a>,
}

/// What every part of a choreography reads while an entry is played.
#[derive(Clone, Copy)]
pub(crate) struct Scene<'a, 's> {
    pub rules: RuleList<'a>,
    pub stores: &'s Stores,
    pub book: &'s PlainBook,
    pub updates: u64,
    pub entry: &'s Entry,
}

/// Where a part that plays stands beside one that nobody has begun.
#[derive(Clone, Copy)]
pub(crate) enum Stand {
    /// First in a sequence.
    First,
    /// Second in a sequence.
    Second,
    /// On the left of a parallel.
    Left,
    /// On the right of a parallel.
    Right,
}

/// Plays the entry, where what is left plays it, and says whether it does: then `effect` is what
/// the entry does. Otherwise, and after want of memory, what is left stays as it was.
#[cycle(playing)]
pub(crate) fn play<'a>(
    alloc: Global,
    left: &mut Running<'a>,
    scene: &Scene<'a, '_>,
    effect: &mut Effect,
) -> Result<bool, Memory>
    ensures played { IfOk result (λ is_played. attempt_if is_played effect.new (running left.new)
        ≡ plays_in scene.now (running left.old)) }
    ensures stays { IfOk result (λ is_played. is_played ≡ false
        → running left.new ≡ running left.old) }
    ensures same { OnErr result (running left.new ≡ running left.old) }
{
    match left {
        Running::Skip => Ok(false),
        Running::Still(_) | Running::Fly(_) => play_here(alloc, left, scene, effect),
        Running::Seq(..) => play_sequence(alloc, left, scene, effect),
        Running::Par(one, _) => {
            if play(alloc, one, scene, effect)? {
                return Ok(true);
            }
            match left {
                Running::Par(_, other) => play(alloc, other, scene, effect),
                _ => unreachable!(),
            }
        }
        Running::Bar(_, inside) => play(alloc, inside, scene, effect),
        Running::Again(_, inside) => {
            let inside: &mut Running<'a> = inside;
            if play(alloc, inside, scene, effect)? {
                return Ok(true);
            }
            if !is_ended(inside) {
                return Ok(false);
            }
            play_here(alloc, left, scene, effect)
        }
    }
}

/// Plays the entry in a sequence, as `play` does: the second part waits until nothing is left of
/// the first one but messages in flight, none of them for the role of the entry.
#[cycle(playing)]
#[tactic(auto, using(crate::proofs::PlayLemmas::seq_waits, crate::proofs::PlayLemmas::seq_goes_on))]
fn play_sequence<'a>(
    alloc: Global,
    left: &mut Running<'a>,
    scene: &Scene<'a, '_>,
    effect: &mut Effect,
) -> Result<bool, Memory>
    requires { is_sequence left.old ≡ true }
    ensures played { IfOk result (λ is_played. attempt_if is_played effect.new (running left.new)
        ≡ plays_in scene.now (running left.old)) }
    ensures stays { IfOk result (λ is_played. is_played ≡ false
        → running left.new ≡ running left.old) }
    ensures same { OnErr result (running left.new ≡ running left.old) }
{
    match left {
        Running::Seq(first, _) => {
            let first: &mut Running<'a> = first;
            if !is_skip(first) {
                if play(alloc, first, scene, effect)? {
                    return Ok(true);
                }
                if !lets_on(first, scene.entry) {
                    return Ok(false);
                }
            }
            match left {
                Running::Seq(_, second) => play(alloc, second, scene, effect),
                _ => unreachable!(),
            }
        }
        _ => unreachable!(),
    }
}

/// Plays the entry where a leaf, or a loop whose turn has ended, plays it, as `play` does. It stays
/// out of `play`, whose frame would grow with it at each level.
#[inline(never)]
fn play_here<'a>(
    alloc: Global,
    left: &mut Running<'a>,
    scene: &Scene<'a, '_>,
    effect: &mut Effect,
) -> Result<bool, Memory>
    requires { plays_itself left.old ≡ true }
    ensures played { IfOk result (λ is_played. attempt_if is_played effect.new (running left.new)
        ≡ plays_in scene.now (running left.old)) }
    ensures stays { IfOk result (λ is_played. is_played ≡ false
        → running left.new ≡ running left.old) }
    ensures same { OnErr result (running left.new ≡ running left.old) }
{
    match play_whole(alloc, left, scene)? {
        None => Ok(false),
        Some(played) => {
            *left = played.left;
            *effect = played.effect;
            Ok(true)
        }
    }
}

/// Whether the entry may be played after this part: nothing is left of it but messages in flight,
/// none of them for the role of the entry.
fn lets_on(first: &Running<'_>, entry: &Entry) -> bool
    ensures { result ≡ (light (running first.now) && not (is_doer_due entry.now
        (running first.now))) }
{
    is_light(first) && !is_doer_due(entry, first)
}

/// How a leaf, or a loop whose turn has ended, plays the entry.
fn play_whole<'a>(
    alloc: Global,
    whole: &Running<'a>,
    scene: &Scene<'a, '_>,
) -> Result<Option<Played<'a>>, Memory>
    requires { plays_itself whole.now ≡ true }
    ensures { IfOk result (λ played. attempt_of played
        ≡ plays_in scene.now (running whole.now)) }
{
    match whole {
        Running::Skip => Ok(None),
        Running::Still(part) => play_part(alloc, part.choreo, part.marks, scene),
        Running::Fly(flight) => play_landing(alloc, flight, scene),
        Running::Again(turn, _) => play_loop(alloc, *turn, scene),
        _ => unreachable!(),
    }
}

/// How a part that nobody has begun plays the entry.
#[tactic(auto, using(crate::proofs::PlayLemmas::waits, crate::proofs::PlayLemmas::still_second))]
fn play_part<'a>(
    alloc: Global,
    choreo: &'a Choreo,
    marks: Marks,
    scene: &Scene<'a, '_>,
) -> Result<Option<Played<'a>>, Memory>
    ensures { IfOk result (λ played. attempt_of played
        ≡ plays_in scene.now (started (marked choreo.now marks))) }
{
    match choreo {
        Choreo::Seq(first, second) => {
            if let Some(played) = play_part(alloc, first, marks, scene)? {
                return beside(alloc, Some(played), Stand::First, marks.inside(second));
            }
            if !is_empty(first) {
                return Ok(None);
            }
            let played = play_part(alloc, second, marks, scene)?;
            beside(alloc, played, Stand::Second, marks.inside(first))
        }
        Choreo::Par(left, right) => {
            if let Some(played) = play_part(alloc, left, marks, scene)? {
                return beside(alloc, Some(played), Stand::Left, marks.inside(right));
            }
            let played = play_part(alloc, right, marks, scene)?;
            beside(alloc, played, Stand::Right, marks.inside(left))
        }
        choreo => play_construct(alloc, Part { choreo, marks }, scene),
    }
}

/// How an interaction, an assignment, an input, a choice, a loop or a scope plays the entry.
fn play_construct<'a>(
    alloc: Global,
    part: Part<'a>,
    scene: &Scene<'a, '_>,
) -> Result<Option<Played<'a>>, Memory>
    requires { is_whole (term part.choreo.now) ≡ true }
    ensures { IfOk result (λ played. attempt_of played
        ≡ plays_in scene.now (started (part_term part.entry))) }
{
    let marks = part.marks;
    match part.choreo {
        Choreo::Skip => Ok(None),
        Choreo::Com {
            index,
            op,
            from,
            expr,
            to,
            var,
        } => {
            let message = Message {
                from,
                to,
                index: marks.of(*index),
                op,
            };
            play_sending(alloc, message, expr, var, scene)
        }
        Choreo::Set {
            index,
            var,
            role,
            expr,
        } => play_setting(alloc, marks.of(*index), var, role, expr, scene),
        Choreo::Input { index, var, role } => {
            play_input(alloc, marks.of(*index), var, role, scene)
        }
        _ => play_branching(alloc, part, scene),
    }
}

/// How a choice, a loop or a scope plays the entry.
fn play_branching<'a>(
    alloc: Global,
    part: Part<'a>,
    scene: &Scene<'a, '_>,
) -> Result<Option<Played<'a>>, Memory>
    requires { is_branching (term part.choreo.now) ≡ true }
    ensures { IfOk result (λ played. attempt_of played
        ≡ plays_in scene.now (started (part_term part.entry))) }
{
    let marks = part.marks;
    match part.choreo {
        Choreo::If {
            index,
            leader,
            guard,
            yes,
            no,
        } => {
            let index = marks.of(*index);
            let yes = marks.inside(yes);
            let no = marks.inside(no);
            play_choice(alloc, index, leader, guard, yes, no, scene)
        }
        Choreo::While {
            index,
            leader,
            guard,
            body,
        } => {
            let turn = Loop {
                index: marks.of(*index),
                leader,
                guard,
                body: marks.inside(body),
            };
            play_loop(alloc, turn, scene)
        }
        Choreo::Scope { .. } => play_scope(alloc, part, scene),
        _ => unreachable!(),
    }
}

/// The message begins to fly, with the value of the expression.
fn play_sending<'a>(
    alloc: Global,
    message: Message<'a>,
    expr: &Expr,
    var: &'a Name,
    scene: &Scene<'a, '_>,
) -> Result<Option<Played<'a>>, Memory>
    ensures { IfOk result (λ played. attempt_of played
        ≡ plays_in scene.now (runs.Com message.entry.index message.entry.op.now
        message.entry.from.now (expression expr.now) message.entry.to.now var.now)) }
{
    let store = scene.stores.of(message.from);
    match put_value(alloc, scene.entry, message, expr, store)? {
        None => Ok(None),
        Some(value) => Ok(Some(Played {
            effect: Effect::Leaves,
            left: Running::Fly(Flight {
                message,
                var,
                value,
            }),
        })),
    }
}

/// The message lands in the receiver's variable.
fn play_landing<'a>(
    alloc: Global,
    flight: &Flight<'a>,
    scene: &Scene<'a, '_>,
) -> Result<Option<Played<'a>>, Memory>
    ensures { IfOk result (λ played. attempt_of played
        ≡ plays_in scene.now (flying flight.now)) }
{
    if !is_take(scene.entry, flight.message, flight.var) {
        return Ok(None);
    }
    let var = flight.var.copy(alloc)?;
    let value = flight.value.copy(alloc)?;
    Ok(Some(Played {
        effect: Effect::Assigns(var, value),
        left: Running::Skip,
    }))
}

fn play_setting<'a>(
    alloc: Global,
    index: Index,
    var: &Name,
    role: &Role,
    expr: &Expr,
    scene: &Scene<'a, '_>,
) -> Result<Option<Played<'a>>, Memory>
    ensures { IfOk result (λ played. attempt_of played
        ≡ plays_in scene.now (runs.Set index var.now role.now (expression expr.now))) }
{
    let store = scene.stores.of(role);
    match set_value(alloc, scene.entry, index, var, role, expr, store)? {
        None => Ok(None),
        Some(value) => Ok(Some(Played {
            effect: Effect::Assigns(var.copy(alloc)?, value),
            left: Running::Skip,
        })),
    }
}

fn play_input<'a>(
    alloc: Global,
    index: Index,
    var: &Name,
    role: &Role,
    scene: &Scene<'a, '_>,
) -> Result<Option<Played<'a>>, Memory>
    ensures { IfOk result (λ played. attempt_of played
        ≡ plays_in scene.now (runs.Input index var.now role.now)) }
{
    let store = scene.stores.of(role);
    match input_value(alloc, scene.entry, index, var, role, store)? {
        None => Ok(None),
        Some(value) => Ok(Some(Played {
            effect: Effect::Reads(var.copy(alloc)?, value),
            left: Running::Skip,
        })),
    }
}

/// The leader picks a branch.
fn play_choice<'a>(
    alloc: Global,
    index: Index,
    leader: &Role,
    guard: &Expr,
    yes: Part<'a>,
    no: Part<'a>,
    scene: &Scene<'a, '_>,
) -> Result<Option<Played<'a>>, Memory>
    ensures { IfOk result (λ played. attempt_of played
        ≡ plays_in scene.now (runs.If index leader.now (expression guard.now)
        (part_term yes.entry) (part_term no.entry))) }
{
    let store = scene.stores.of(leader);
    match picked(alloc, scene.entry, index, leader, guard, store)? {
        None => Ok(None),
        Some(flag) => Ok(Some(leaves(Running::Still(if flag { yes } else { no })))),
    }
}

/// The leader of the loop picks a turn with a fresh body, or the end.
fn play_loop<'a>(
    alloc: Global,
    turn: Loop<'a>,
    scene: &Scene<'a, '_>,
) -> Result<Option<Played<'a>>, Memory>
    ensures { IfOk result (λ played. attempt_of played
        ≡ plays_in scene.now (runs.While turn.entry.index turn.entry.leader.now
        (expression turn.entry.guard.now) (part_term turn.entry.body))) }
{
    let store = scene.stores.of(turn.leader);
    match picked(
        alloc,
        scene.entry,
        turn.index,
        turn.leader,
        turn.guard,
        store,
    )? {
        None => Ok(None),
        Some(true) => {
            let inside = new_box(alloc, Running::Still(turn.body))?;
            Ok(Some(leaves(Running::Again(turn, inside))))
        }
        Some(false) => Ok(Some(leaves(Running::Skip))),
    }
}

/// The store stays as it is.
pub(crate) fn leaves<'a>(left: Running<'a>) -> Played<'a>
    ensures effect { result.effect ≡ effects.Leaves }
    ensures left { running result.left ≡ running left.entry }
{
    Played {
        effect: Effect::Leaves,
        left,
    }
}

/// What is left where a part plays beside another that nobody has begun.
fn beside<'a>(
    alloc: Global,
    played: Option<Played<'a>>,
    stand: Stand,
    other: Part<'a>,
) -> Result<Option<Played<'a>>, Memory>
    ensures { IfOk result (λ whole. attempt_of whole
        ≡ under (beside stand (started (part_term other.entry))) (attempt_of played.entry)) }
{
    let Some(Played { effect, left }) = played else {
        return Ok(None);
    };
    match joined(alloc, stand, left, Running::Still(other)) {
        Ok(left) => Ok(Some(Played { effect, left })),
        Err(fault) => give_up(effect, fault),
    }
}

/// A part that stands so beside another, each in a box.
fn joined<'a>(
    alloc: Global,
    stand: Stand,
    part: Running<'a>,
    other: Running<'a>,
) -> Result<Running<'a>, Memory>
    ensures { IfOk result (λ whole. running whole
        ≡ beside stand (running other.entry) (running part.entry)) }
{
    let part = new_box(alloc, part)?;
    let other = new_box(alloc, other)?;
    Ok(match stand {
        Stand::First => Running::Seq(part, other),
        Stand::Second => Running::Seq(other, part),
        Stand::Left => Running::Par(part, other),
        Stand::Right => Running::Par(other, part),
    })
}
