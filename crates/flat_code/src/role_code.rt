//! From a choreography to the code of one of its roles.

ghost use Rattle.std.specs.Prelude.{◌≡◌, ◌<◌, ◌&&◌, [], List, true, false, if◌then◌else◌, length, take, IfOk, OnOk, map, not};
ghost use Rattle.dioc_terms.specs.declared.names.Role.{Role as OneRole};
ghost use Rattle.dioc_terms.specs.Equality.{member};
ghost use Rattle.dioc_terms.specs.Leaves.{is_leaf_term};
ghost use Rattle.dioc_terms.specs.Processes.{Process, IfFollow, ScopeFollow, Skip, WhileFollow};
ghost use Rattle.dioc_terms.specs.Terms.{term, is_in};
ghost use Rattle.flat_code.specs.Codes.{process_of};
ghost use Rattle.flat_code.specs.Places.{AreBelow, Extends, IsForm, are_placed, part_places};
ghost use Rattle.flat_code.specs.RoleCode.{IsPartAdded, IsPartPushed, TwoPartsAreAdded};
ghost use Rattle.process_steps.specs.Steps.{ended};
ghost use Rattle.projection.specs.Leaders.{is_block, is_construct, leads};
ghost use Rattle.projection.specs.Named.{named_in, names_inside, names_itself, raised};
ghost use Rattle.projection.specs.Projection.{projected};

use crate::code::Code;
use crate::compiled::push;
use crate::forms::{
    assign, follow_choice, follow_loop, follow_scope, lead_choice, lead_loop, lead_scope, read,
    receive, send,
};
use crate::levels::both;
use crate::ops::Op;
use dioc_terms::{Choreo, Index, Memory, Role, give_up};
use index_marks::nodes;
use projection::leaders::{head, leads};
use projection::named::{names_itself, others, own_flags, raise, raise_own};
use std::alloc::Global;

/// A part whose ops were added.
#[derive(Clone, Copy)]
struct Added {
    /// Its place.
    place: usize,
    /// Whether nothing is left to do of it.
    ended: bool,
}

/// The code of a role's process, made from the choreography: of the process that `project` of
/// `projection` makes, without that process. Room for an op of each node of the choreography is
/// taken at once, and given back where the role has fewer; the error is want of memory.
#[tactic(auto, using(crate::proofs::RoleLemmas::role_laid))]
pub fn compile_role(
    alloc: Global,
    choreo: &Choreo,
    role: &Role,
    cast: &[Role],
) -> Result<Code, Memory>
    requires { (q : OneRole) → is_in q (term choreo.now) ≡ true → member q cast.now ≡ true }
    ensures { IfOk result (λ code. process_of code
        ≡ projected cast.now (term choreo.now) role.now) }
{
    let mut ops = Vec::with_capacity(alloc, nodes(choreo))?;
    match add(alloc, choreo, role, cast, &mut [], &mut ops) {
        Ok(added) => {
            ops.shrink_to_fit();
            Ok(Code {
                ops,
                start: added.place,
            })
        }
        Err(fault) => give_up(ops, fault),
    }
}

/// Appends the ops of the role's process in a part of the choreography. The flags are raised of the
/// roles that the part names; where no construct around it asks for its roles, there are none.
#[cycle(compile_role)]
#[tactic(auto, using(crate::proofs::RoleLemmas::adding_rules))]
fn add(
    alloc: Global,
    choreo: &Choreo,
    role: &Role,
    cast: &[Role],
    named: &mut [bool],
    ops: &mut Vec<Op>,
) -> Result<Added, Memory>
    requires placed { are_placed 0 ops.old.items ≡ true }
    ensures placed { are_placed 0 ops.new.items ≡ true }
    ensures appended { Extends ops.old.items ops.new.items }
    ensures added { IfOk result (λ part. IsPartAdded ops.old.items ops.new.items part
        (projected cast.now (term choreo.now) role.now)) }
    ensures named { OnOk result (named.new ≡ raised (named_in cast.now (term choreo.now))
        named.old) }
{
    match choreo {
        Choreo::Seq(first, second) => {
            let first = add(alloc, first, role, cast, named, ops)?;
            let second = add(alloc, second, role, cast, named, ops)?;
            let op = Op::Seq {
                first: first.place,
                second: second.place,
            };
            add_op(ops, op, both(first.ended, second.ended))
        }
        Choreo::Par(left, right) => {
            let left = add(alloc, left, role, cast, named, ops)?;
            let right = add(alloc, right, role, cast, named, ops)?;
            let op = Op::Par {
                left: left.place,
                right: right.place,
            };
            add_op(ops, op, both(left.ended, right.ended))
        }
        Choreo::If { .. } | Choreo::While { .. } | Choreo::Scope { .. } => {
            add_construct(alloc, choreo, role, cast, named, ops)
        }
        leaf => add_leaf(alloc, leaf, role, cast, named, ops),
    }
}

/// The same of a choice, a loop or a scope. Its leader asks for its roles, and so has flags of its
/// own for it, which are then raised around it too.
#[cycle(compile_role)]
fn add_construct(
    alloc: Global,
    whole: &Choreo,
    role: &Role,
    cast: &[Role],
    named: &mut [bool],
    ops: &mut Vec<Op>,
) -> Result<Added, Memory>
    requires construct { is_construct (term whole.now) ≡ true }
    requires placed { are_placed 0 ops.old.items ≡ true }
    ensures placed { are_placed 0 ops.new.items ≡ true }
    ensures appended { Extends ops.old.items ops.new.items }
    ensures added { IfOk result (λ part. IsPartAdded ops.old.items ops.new.items part
        (projected cast.now (term whole.now) role.now)) }
    ensures named { OnOk result (named.new ≡ raised (named_in cast.now (term whole.now))
        named.old) }
{
    if leads(whole, role) {
        let mut own = own_flags(alloc, cast, whole)?;
        let added = add_led(alloc, whole, role, cast, own.as_mut_slice(), ops)?;
        raise(named, own.as_slice());
        return Ok(added);
    }
    raise_own(named, cast, whole);
    add_followed(alloc, whole, role, cast, named, ops)
}

/// The same of one that the role leads. The flags are raised of the roles that the construct itself
/// names, and then of those that stand inside.
#[cycle(compile_role)]
#[tactic(auto, using(crate::proofs::RoleLemmas::adding_rules))]
fn add_led(
    alloc: Global,
    whole: &Choreo,
    role: &Role,
    cast: &[Role],
    named: &mut [bool],
    ops: &mut Vec<Op>,
) -> Result<Added, Memory>
    requires leads { leads role.now (term whole.now) ≡ true }
    requires own { named.old ≡ map (λ q. names_itself q (term whole.now)) cast.now }
    requires placed { are_placed 0 ops.old.items ≡ true }
    ensures placed { are_placed 0 ops.new.items ≡ true }
    ensures appended { Extends ops.old.items ops.new.items }
    ensures added { IfOk result (λ part. IsPartAdded ops.old.items ops.new.items part
        (projected cast.now (term whole.now) role.now)) }
    ensures named { OnOk result (named.new ≡ named_in cast.now (term whole.now)) }
{
    match whole {
        Choreo::If {
            index,
            leader,
            guard,
            yes,
            no,
        } => {
            let yes = add(alloc, yes, role, cast, named, ops)?;
            let no = add(alloc, no, role, cast, named, ops)?;
            let others = others(alloc, cast, leader, named)?;
            let op = lead_choice(alloc, *index, guard, others, (yes.place, no.place))?;
            add_op(ops, op, false)
        }
        Choreo::While { .. } | Choreo::Scope { .. } => {
            add_led_block(alloc, whole, role, cast, named, ops)
        }
        _ => unreachable!(),
    }
}

/// The same of a loop or a scope that the role leads.
#[cycle(compile_role)]
#[tactic(auto, using(crate::proofs::RoleLemmas::adding_rules))]
fn add_led_block(
    alloc: Global,
    whole: &Choreo,
    role: &Role,
    cast: &[Role],
    named: &mut [bool],
    ops: &mut Vec<Op>,
) -> Result<Added, Memory>
    requires block { is_block (term whole.now) ≡ true }
    requires leads { leads role.now (term whole.now) ≡ true }
    requires own { named.old ≡ map (λ q. names_itself q (term whole.now)) cast.now }
    requires placed { are_placed 0 ops.old.items ≡ true }
    ensures placed { are_placed 0 ops.new.items ≡ true }
    ensures appended { Extends ops.old.items ops.new.items }
    ensures added { IfOk result (λ part. IsPartAdded ops.old.items ops.new.items part
        (projected cast.now (term whole.now) role.now)) }
    ensures named { OnOk result (named.new ≡ named_in cast.now (term whole.now)) }
{
    match whole {
        Choreo::While {
            index,
            leader,
            guard,
            body,
        } => {
            let body = add(alloc, body, role, cast, named, ops)?;
            let others = others(alloc, cast, leader, named)?;
            let op = lead_loop(alloc, *index, guard, others, body.place)?;
            add_op(ops, op, false)
        }
        Choreo::Scope {
            index,
            leader,
            body,
            props,
            level,
            ..
        } => {
            let body = add(alloc, body, role, cast, named, ops)?;
            let others = others(alloc, cast, leader, named)?;
            let head = head(alloc, *index, leader, props, *level, cast, named)?;
            add_op(ops, lead_scope(head, others, body.place), false)
        }
        _ => unreachable!(),
    }
}

/// The same of one that another role leads. The flags are raised of the roles that stand inside.
#[cycle(compile_role)]
#[tactic(auto, using(crate::proofs::RoleLemmas::adding_rules))]
fn add_followed(
    alloc: Global,
    whole: &Choreo,
    role: &Role,
    cast: &[Role],
    named: &mut [bool],
    ops: &mut Vec<Op>,
) -> Result<Added, Memory>
    requires construct { is_construct (term whole.now) ≡ true }
    requires led { leads role.now (term whole.now) ≡ false }
    requires placed { are_placed 0 ops.old.items ≡ true }
    ensures placed { are_placed 0 ops.new.items ≡ true }
    ensures appended { Extends ops.old.items ops.new.items }
    ensures added { IfOk result (λ part. IsPartAdded ops.old.items ops.new.items part
        (projected cast.now (term whole.now) role.now)) }
    ensures named { OnOk result (named.new
        ≡ raised (map (λ q. names_inside q (term whole.now)) cast.now) named.old) }
{
    let before = ops.len();
    match whole {
        Choreo::If {
            index,
            leader,
            yes,
            no,
            ..
        } => {
            let yes = add(alloc, yes, role, cast, named, ops)?;
            let no = add(alloc, no, role, cast, named, ops)?;
            add_choice(alloc, *index, leader, (yes, no), before, ops)
        }
        Choreo::While { .. } | Choreo::Scope { .. } => {
            add_followed_block(alloc, whole, role, cast, named, ops)
        }
        _ => unreachable!(),
    }
}

/// The same of a loop or a scope that another role leads.
#[cycle(compile_role)]
#[tactic(auto, using(crate::proofs::RoleLemmas::adding_rules))]
fn add_followed_block(
    alloc: Global,
    whole: &Choreo,
    role: &Role,
    cast: &[Role],
    named: &mut [bool],
    ops: &mut Vec<Op>,
) -> Result<Added, Memory>
    requires block { is_block (term whole.now) ≡ true }
    requires led { leads role.now (term whole.now) ≡ false }
    requires placed { are_placed 0 ops.old.items ≡ true }
    ensures placed { are_placed 0 ops.new.items ≡ true }
    ensures appended { Extends ops.old.items ops.new.items }
    ensures added { IfOk result (λ part. IsPartAdded ops.old.items ops.new.items part
        (projected cast.now (term whole.now) role.now)) }
    ensures named { OnOk result (named.new
        ≡ raised (map (λ q. names_inside q (term whole.now)) cast.now) named.old) }
{
    let before = ops.len();
    match whole {
        Choreo::While {
            index,
            leader,
            body,
            ..
        } => {
            let body = add(alloc, body, role, cast, named, ops)?;
            add_loop(alloc, *index, leader, body, before, ops)
        }
        Choreo::Scope {
            index,
            leader,
            body,
            ..
        } => {
            let body = add(alloc, body, role, cast, named, ops)?;
            add_scope(
                alloc,
                *index,
                leader,
                (body, names_itself(whole, role)),
                before,
                ops,
            )
        }
        _ => unreachable!(),
    }
}

/// Appends the op of a choice that another role leads, of which the branches were added behind so
/// many ops. Where nothing is left to do in either branch, `Skip` stands in place of all.
#[tactic(auto, using(crate::proofs::RoleLemmas::cutting_rules))]
fn add_choice(
    alloc: Global,
    index: Index,
    leader: &Role,
    branches: (Added, Added),
    before: usize,
    ops: &mut Vec<Op>,
) -> Result<Added, Memory>
    requires placed { are_placed 0 ops.old.items ≡ true }
    requires first { branches.0.place < length ops.old.items }
    requires second { branches.1.place < length ops.old.items }
    ensures placed { are_placed 0 ops.new.items ≡ true }
    ensures appended { Extends (take before ops.old.items) ops.new.items }
    ensures added { (P Q : Process) →
        TwoPartsAreAdded (take before ops.old.items) ops.old.items branches.0 branches.1 P Q →
        IfOk result (λ part. IsPartAdded (take before ops.old.items) ops.new.items part
        (if ended P && ended Q then Skip else IfFollow index leader.now P Q)) }
{
    if both(branches.0.ended, branches.1.ended) {
        return add_nothing(before, ops);
    }
    let places = (branches.0.place, branches.1.place);
    let op = follow_choice(alloc, index, leader, places)?;
    add_op(ops, op, false)
}

/// Appends the op of a loop that another role leads, of which the body was added behind so many
/// ops. Where nothing is left to do in it, `Skip` stands in place of all.
#[tactic(auto, using(crate::proofs::RoleLemmas::cutting_rules))]
fn add_loop(
    alloc: Global,
    index: Index,
    leader: &Role,
    body: Added,
    before: usize,
    ops: &mut Vec<Op>,
) -> Result<Added, Memory>
    requires placed { are_placed 0 ops.old.items ≡ true }
    requires body { body.place < length ops.old.items }
    ensures placed { are_placed 0 ops.new.items ≡ true }
    ensures appended { Extends (take before ops.old.items) ops.new.items }
    ensures added { (P : Process) →
        IsPartAdded (take before ops.old.items) ops.old.items body P →
        IfOk result (λ part. IsPartAdded (take before ops.old.items) ops.new.items part
        (if ended P then Skip else WhileFollow index leader.now P)) }
{
    if body.ended {
        return add_nothing(before, ops);
    }
    let op = follow_loop(alloc, index, leader, body.place)?;
    add_op(ops, op, false)
}

/// Appends the op of a scope that another role leads, of which the body was added behind so many
/// ops, and where it is known whether it names the role itself. In a body with nothing to do,
/// whatever its form, stands `Skip`, and in place of all where the scope doesn't name the role.
#[tactic(auto, using(crate::proofs::RoleLemmas::cutting_rules))]
fn add_scope(
    alloc: Global,
    index: Index,
    leader: &Role,
    named: (Added, bool),
    before: usize,
    ops: &mut Vec<Op>,
) -> Result<Added, Memory>
    requires placed { are_placed 0 ops.old.items ≡ true }
    requires body { named.0.place < length ops.old.items }
    ensures placed { are_placed 0 ops.new.items ≡ true }
    ensures appended { Extends (take before ops.old.items) ops.new.items }
    ensures added { (P : Process) →
        IsPartAdded (take before ops.old.items) ops.old.items named.0 P →
        IfOk result (λ part. IsPartAdded (take before ops.old.items) ops.new.items part
        (if not (ended P) then ScopeFollow index leader.now P else
        if named.1 then ScopeFollow index leader.now Skip else Skip)) }
{
    let (body, is_named) = named;
    if !body.ended {
        let op = follow_scope(alloc, index, leader, body.place)?;
        return add_op(ops, op, false);
    }
    let nothing = add_nothing(before, ops)?;
    if !is_named {
        return Ok(nothing);
    }
    let op = follow_scope(alloc, index, leader, nothing.place)?;
    add_op(ops, op, false)
}

/// Cuts all but so many ops off, and appends that of `Skip`.
#[tactic(auto, using(crate::proofs::RoleLemmas::cutting_rules))]
fn add_nothing(before: usize, ops: &mut Vec<Op>) -> Result<Added, Memory>
    requires placed { are_placed 0 ops.old.items ≡ true }
    ensures placed { are_placed 0 ops.new.items ≡ true }
    ensures appended { Extends (take before ops.old.items) ops.new.items }
    ensures added { IfOk result (λ part. IsPartAdded (take before ops.old.items) ops.new.items part
        Skip) }
{
    ops.truncate(before);
    add_op(ops, Op::Skip, true)
}

/// Appends the ops of the role's process in a term with no term inside. The flags are raised of its
/// roles.
#[tactic(auto, using(projection::proofs::Flags::leaf_named))]
fn add_leaf(
    alloc: Global,
    leaf: &Choreo,
    role: &Role,
    cast: &[Role],
    named: &mut [bool],
    ops: &mut Vec<Op>,
) -> Result<Added, Memory>
    requires leaf { is_leaf_term (term leaf.now) ≡ true }
    requires placed { are_placed 0 ops.old.items ≡ true }
    ensures placed { are_placed 0 ops.new.items ≡ true }
    ensures appended { Extends ops.old.items ops.new.items }
    ensures added { IfOk result (λ part. IsPartAdded ops.old.items ops.new.items part
        (projected cast.now (term leaf.now) role.now)) }
    ensures named { OnOk result (named.new ≡ raised (named_in cast.now (term leaf.now))
        named.old) }
{
    raise_own(named, cast, leaf);
    add_own(alloc, leaf, role, ops)
}

/// The same, whatever the flags and the cast.
fn add_own(alloc: Global, leaf: &Choreo, role: &Role, ops: &mut Vec<Op>) -> Result<Added, Memory>
    requires leaf { is_leaf_term (term leaf.now) ≡ true }
    requires placed { are_placed 0 ops.old.items ≡ true }
    ensures placed { are_placed 0 ops.new.items ≡ true }
    ensures appended { Extends ops.old.items ops.new.items }
    ensures added { (cast : List OneRole) →
        IfOk result (λ part. IsPartAdded ops.old.items ops.new.items part
        (projected cast (term leaf.now) role.now)) }
{
    if !names_itself(leaf, role) {
        return add_op(ops, Op::Skip, true);
    }
    let op = own_op(alloc, leaf, role)?;
    add_op(ops, op, false)
}

/// The op of a role that a term with no term inside names.
fn own_op(alloc: Global, leaf: &Choreo, role: &Role) -> Result<Op, Memory>
    requires leaf { is_leaf_term (term leaf.now) ≡ true }
    requires named { names_itself role.now (term leaf.now) ≡ true }
    ensures { (cast : List OneRole) →
        IfOk result (λ form. IsForm form [] (λ done. projected cast (term leaf.now) role.now)) }
{
    match leaf {
        Choreo::Com {
            index,
            op,
            from,
            expr,
            to,
            var,
        } => {
            if role == from {
                send(alloc, *index, op, to, expr)
            } else {
                receive(alloc, *index, op, from, var)
            }
        }
        Choreo::Set {
            index,
            var,
            expr,
            ..
        } => assign(alloc, *index, var, expr),
        Choreo::Input { index, var, .. } => read(alloc, *index, var),
        _ => unreachable!(),
    }
}

/// Appends an op whose parts stand before it.
fn add_op(ops: &mut Vec<Op>, op: Op, ended: bool) -> Result<Added, Memory>
    requires placed { are_placed 0 ops.old.items ≡ true }
    requires earlier { AreBelow (length ops.old.items) (part_places op) }
    ensures placed { are_placed 0 ops.new.items ≡ true }
    ensures appended { Extends ops.old.items ops.new.items }
    ensures pushed { IfOk result (IsPartPushed ops.old.items ops.new.items op ended) }
{
    let place = push(ops, op)?;
    Ok(Added { place, ended })
}
