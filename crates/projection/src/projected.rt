//! The process of one role of a choreography.

ghost use Rattle.std.specs.Prelude.{◌≡◌, ◌&&◌, IfOk, OnOk, true, false, if◌then◌else◌, map, not};
ghost use Rattle.dioc_terms.specs.Equality.{member};
ghost use Rattle.dioc_terms.specs.Leaves.{is_leaf_term};
ghost use Rattle.dioc_terms.specs.Processes.{process, IfFollow, ScopeFollow, Skip, WhileFollow};
ghost use Rattle.dioc_terms.specs.Terms.{term, is_in};
ghost use Rattle.process_steps.specs.Steps.{ended};
ghost use Rattle.projection.specs.Leaders.{is_block, is_construct, leads};
ghost use Rattle.projection.specs.Named.{named_in, names_inside, names_itself, raised};
ghost use Rattle.projection.specs.Projection.{projected};

use crate::leaders::{head, leads};
use crate::named::{names_itself, others, own_flags, raise, raise_own};
use dioc_terms::{Choreo, Index, Memory, Messages, Proc, Role, new_box};
use std::alloc::Global;

/// The process of a role: the constructs of the choreography in which it takes part, and nothing in
/// place of the others.
///
/// Sequences and parallels are kept as they are. A sender sends, and a receiver takes. The leader
/// of a choice, a loop or a scope has the other roles of the construct, in the order of the cast,
/// whom it tells one by one; each of these waits to be told. A role that a scope names and its body
/// doesn't has nothing to do inside, but follows the scope like the others. The roles of the
/// choreography are in the cast.
pub fn project(alloc: Global, choreo: &Choreo, role: &Role, cast: &[Role]) -> Result<Proc, Memory>
    requires { (q : Role) → is_in q (term choreo.now) ≡ true → member q cast.now ≡ true }
    ensures { IfOk result (λ proc. process proc ≡ projected cast.now (term choreo.now) role.now) }
{
    part(alloc, choreo, role, cast, &mut [])
}

/// The process of the role in a part of the choreography. The flags are raised of the roles that
/// the part names; where no construct around it asks for its roles, there are none.
#[cycle(project)]
#[tactic(auto, using(crate::proofs::Flags::both_named))]
fn part(
    alloc: Global,
    choreo: &Choreo,
    role: &Role,
    cast: &[Role],
    named: &mut [bool],
) -> Result<Proc, Memory>
    ensures made { IfOk result (λ proc. process proc ≡ projected cast.now (term choreo.now)
        role.now) }
    ensures named { OnOk result (named.new ≡ raised (named_in cast.now (term choreo.now))
        named.old) }
{
    match choreo {
        Choreo::Seq(first, second) => {
            let first = boxed_part(alloc, first, role, cast, named)?;
            let second = boxed_part(alloc, second, role, cast, named)?;
            Ok(Proc::Seq(first, second))
        }
        Choreo::Par(left, right) => {
            let left = boxed_part(alloc, left, role, cast, named)?;
            let right = boxed_part(alloc, right, role, cast, named)?;
            Ok(Proc::Par(left, right))
        }
        Choreo::If { .. } | Choreo::While { .. } | Choreo::Scope { .. } => {
            construct(alloc, choreo, role, cast, named)
        }
        leaf => leaf_part(alloc, leaf, role, cast, named),
    }
}

/// The process in a box.
#[cycle(project)]
fn boxed_part(
    alloc: Global,
    choreo: &Choreo,
    role: &Role,
    cast: &[Role],
    named: &mut [bool],
) -> Result<Box<Proc>, Memory>
    ensures made { IfOk result (λ made. process made.value ≡ projected cast.now (term choreo.now)
        role.now) }
    ensures named { OnOk result (named.new ≡ raised (named_in cast.now (term choreo.now))
        named.old) }
{
    new_box(alloc, part(alloc, choreo, role, cast, named)?)
}

/// The process of the role in a choice, a loop or a scope. Its leader asks for its roles, and so
/// has flags of its own for it, which are then raised around it too.
#[cycle(project)]
fn construct(
    alloc: Global,
    whole: &Choreo,
    role: &Role,
    cast: &[Role],
    named: &mut [bool],
) -> Result<Proc, Memory>
    requires { is_construct (term whole.now) ≡ true }
    ensures made { IfOk result (λ proc. process proc ≡ projected cast.now (term whole.now)
        role.now) }
    ensures named { OnOk result (named.new ≡ raised (named_in cast.now (term whole.now))
        named.old) }
{
    if leads(whole, role) {
        let mut own = own_flags(alloc, cast, whole)?;
        let made = lead(alloc, whole, role, cast, own.as_mut_slice())?;
        raise(named, own.as_slice());
        return Ok(made);
    }
    raise_own(named, cast, whole);
    follow(alloc, whole, role, cast, named)
}

/// The process of the leader. The flags are raised of the roles that the construct itself names,
/// and then of those that stand inside.
#[cycle(project)]
fn lead(
    alloc: Global,
    whole: &Choreo,
    role: &Role,
    cast: &[Role],
    named: &mut [bool],
) -> Result<Proc, Memory>
    requires leads { leads role.now (term whole.now) ≡ true }
    requires own { named.old ≡ map (λ q. names_itself q (term whole.now)) cast.now }
    ensures made { IfOk result (λ proc. process proc ≡ projected cast.now (term whole.now)
        role.now) }
    ensures named { OnOk result (named.new ≡ named_in cast.now (term whole.now)) }
{
    match whole {
        Choreo::If {
            index,
            leader,
            guard,
            yes,
            no,
        } => {
            let yes = boxed_part(alloc, yes, role, cast, named)?;
            let no = boxed_part(alloc, no, role, cast, named)?;
            let others = others(alloc, cast, leader, named)?;
            Proc::lead_choice(alloc, *index, guard, others, yes, no)
        }
        Choreo::While { .. } | Choreo::Scope { .. } => lead_block(alloc, whole, role, cast, named),
        _ => unreachable!(),
    }
}

/// The same of the leader of a loop or a scope.
#[cycle(project)]
fn lead_block(
    alloc: Global,
    whole: &Choreo,
    role: &Role,
    cast: &[Role],
    named: &mut [bool],
) -> Result<Proc, Memory>
    requires block { is_block (term whole.now) ≡ true }
    requires leads { leads role.now (term whole.now) ≡ true }
    requires own { named.old ≡ map (λ q. names_itself q (term whole.now)) cast.now }
    ensures made { IfOk result (λ proc. process proc ≡ projected cast.now (term whole.now)
        role.now) }
    ensures named { OnOk result (named.new ≡ named_in cast.now (term whole.now)) }
{
    match whole {
        Choreo::While {
            index,
            leader,
            guard,
            body,
        } => {
            let body = boxed_part(alloc, body, role, cast, named)?;
            let others = others(alloc, cast, leader, named)?;
            Proc::lead_loop(alloc, *index, guard, others, body)
        }
        Choreo::Scope {
            index,
            leader,
            body,
            props,
            level,
            ..
        } => {
            let body = boxed_part(alloc, body, role, cast, named)?;
            let others = others(alloc, cast, leader, named)?;
            let head = head(alloc, *index, leader, props, *level, cast, named)?;
            Ok(Proc::ScopeLead { head, others, body })
        }
        _ => unreachable!(),
    }
}

/// The process of a role that doesn't lead the construct. The flags are raised of the roles that
/// stand inside.
#[cycle(project)]
#[tactic(auto, using(crate::proofs::Leading::following_rules))]
fn follow(
    alloc: Global,
    whole: &Choreo,
    role: &Role,
    cast: &[Role],
    named: &mut [bool],
) -> Result<Proc, Memory>
    requires construct { is_construct (term whole.now) ≡ true }
    requires led { leads role.now (term whole.now) ≡ false }
    ensures made { IfOk result (λ proc. process proc ≡ projected cast.now (term whole.now)
        role.now) }
    ensures named { OnOk result (named.new
        ≡ raised (map (λ q. names_inside q (term whole.now)) cast.now) named.old) }
{
    match whole {
        Choreo::If {
            index,
            leader,
            yes,
            no,
            ..
        } => {
            let yes = boxed_part(alloc, yes, role, cast, named)?;
            let no = boxed_part(alloc, no, role, cast, named)?;
            follow_choice(alloc, *index, leader, yes, no)
        }
        Choreo::While { .. } | Choreo::Scope { .. } => {
            follow_block(alloc, whole, role, cast, named)
        }
        _ => unreachable!(),
    }
}

/// The same of a role that doesn't lead the loop or the scope.
#[cycle(project)]
#[tactic(auto, using(crate::proofs::Leading::following_rules))]
fn follow_block(
    alloc: Global,
    whole: &Choreo,
    role: &Role,
    cast: &[Role],
    named: &mut [bool],
) -> Result<Proc, Memory>
    requires block { is_block (term whole.now) ≡ true }
    requires led { leads role.now (term whole.now) ≡ false }
    ensures made { IfOk result (λ proc. process proc ≡ projected cast.now (term whole.now)
        role.now) }
    ensures named { OnOk result (named.new
        ≡ raised (map (λ q. names_inside q (term whole.now)) cast.now) named.old) }
{
    match whole {
        Choreo::While {
            index,
            leader,
            body,
            ..
        } => {
            let body = boxed_part(alloc, body, role, cast, named)?;
            follow_loop(alloc, *index, leader, body)
        }
        Choreo::Scope {
            index,
            leader,
            body,
            ..
        } => {
            let body = boxed_part(alloc, body, role, cast, named)?;
            follow_scope(alloc, *index, leader, body, names_itself(whole, role))
        }
        _ => unreachable!(),
    }
}

/// Follows a choice, unless there is nothing to do in either branch.
fn follow_choice(
    alloc: Global,
    index: Index,
    leader: &Role,
    yes: Box<Proc>,
    no: Box<Proc>,
) -> Result<Proc, Memory>
    ensures { IfOk result (λ proc. process proc
        ≡ (if ended (process yes.value) && ended (process no.value) then Skip else
        IfFollow index leader.now (process yes.value) (process no.value))) }
{
    if has_ended(&yes) && has_ended(&no) {
        return Ok(Proc::Skip);
    }
    Proc::follow_choice(alloc, index, leader, yes, no)
}

/// Follows a loop, unless there is nothing to do in its body.
fn follow_loop(alloc: Global, index: Index, leader: &Role, body: Box<Proc>) -> Result<Proc, Memory>
    ensures { IfOk result (λ proc. process proc
        ≡ (if ended (process body.value) then Skip else
        WhileFollow index leader.now (process body.value))) }
{
    if has_ended(&body) {
        return Ok(Proc::Skip);
    }
    Proc::follow_loop(alloc, index, leader, body)
}

/// Follows a scope that names the role or in whose body there is something to do; in a body that
/// has nothing to do, whatever its form, stands `Skip`.
fn follow_scope(
    alloc: Global,
    index: Index,
    leader: &Role,
    body: Box<Proc>,
    is_named: bool,
) -> Result<Proc, Memory>
    ensures { IfOk result (λ proc. process proc
        ≡ (if not (ended (process body.value)) then
        ScopeFollow index leader.now (process body.value) else
        if is_named then ScopeFollow index leader.now Skip else Skip)) }
{
    if !has_ended(&body) {
        return Proc::follow_scope(alloc, index, leader, body);
    }
    if is_named {
        return Proc::follow_scope(alloc, index, leader, new_box(alloc, Proc::Skip)?);
    }
    Ok(Proc::Skip)
}

/// Whether nothing is left to do. A role has nothing to do exactly in a part that doesn't name it.
fn has_ended(proc: &Proc) -> bool
    ensures { result ≡ ended (process proc.now) }
{
    match proc {
        Proc::Skip => true,
        Proc::Seq(left, right) | Proc::Par(left, right) => has_ended(left) && has_ended(right),
        Proc::Tell { messages } => matches!(messages, Messages::Nothing),
        Proc::Gather { keys } => keys.is_empty(),
        _ => false,
    }
}

/// The process of the role in a term with no term inside. The flags are raised of its roles.
#[tactic(auto, using(crate::proofs::Flags::leaf_named))]
fn leaf_part(
    alloc: Global,
    leaf: &Choreo,
    role: &Role,
    cast: &[Role],
    named: &mut [bool],
) -> Result<Proc, Memory>
    requires { is_leaf_term (term leaf.now) ≡ true }
    ensures made { IfOk result (λ proc. process proc ≡ projected cast.now (term leaf.now)
        role.now) }
    ensures named { OnOk result (named.new ≡ raised (named_in cast.now (term leaf.now))
        named.old) }
{
    raise_own(named, cast, leaf);
    leaf_process(alloc, leaf, role, cast)
}

/// The process of the role in a term with no term inside, whatever the flags.
#[tactic(auto, using(crate::proofs::Leading::out_of_leaf, crate::proofs::Flags::leaf_itself))]
fn leaf_process(alloc: Global, leaf: &Choreo, role: &Role, cast: &[Role]) -> Result<Proc, Memory>
    requires { is_leaf_term (term leaf.now) ≡ true }
    ensures { IfOk result (λ proc. process proc ≡ projected cast.now (term leaf.now) role.now) }
{
    if !names_itself(leaf, role) {
        return Ok(Proc::Skip);
    }
    match leaf {
        Choreo::Com {
            index,
            op,
            from,
            expr,
            to,
            var,
        } => {
            if role == from {
                Proc::send(alloc, *index, op, to, expr)
            } else {
                Proc::receive(alloc, *index, op, from, var)
            }
        }
        Choreo::Set {
            index,
            var,
            expr,
            ..
        } => Proc::assign(alloc, *index, var, expr),
        Choreo::Input { index, var, .. } => Proc::read(alloc, *index, var),
        _ => Ok(Proc::Skip),
    }
}
