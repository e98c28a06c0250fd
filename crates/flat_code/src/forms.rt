//! The forms of an op, each made of copies of what it names.

ghost use Rattle.std.specs.Prelude.{◌≡◌, ◌∷◌, [], true, false, IfOk};
ghost use Rattle.dioc_terms.specs.Expressions.{expression};
ghost use Rattle.dioc_terms.specs.Processes.{Send, Recv, Assign, Read, IfLead, IfFollow, WhileLead, WhileFollow, ScopeLead, ScopeFollow, Tell, Gather, letters, process};
ghost use Rattle.dioc_terms.specs.Parts.{has_body, has_two};
ghost use Rattle.flat_code.specs.Parts.{with_body, with_two};
ghost use Rattle.flat_code.specs.Places.{IsForm, at};

use crate::ops::Op;
use dioc_terms::{Expr, Index, Keys, Memory, Messages, Name, Proc, Role, Roles, ScopeHead};
use std::alloc::Global;

/// The op of a process that has no parts.
pub(crate) fn without_parts(alloc: Global, proc: &Proc) -> Result<Op, Memory>
    requires no_parts { has_two (process proc.now) ≡ false }
    requires no_body { has_body (process proc.now) ≡ false }
    ensures { IfOk result (λ form. IsForm form [] (λ done. process proc.now)) }
{
    match proc {
        Proc::Skip => Ok(Op::Skip),
        Proc::Send {
            index,
            op,
            to,
            expr,
        } => send(alloc, *index, op, to, expr),
        Proc::Recv {
            index,
            op,
            from,
            var,
        } => receive(alloc, *index, op, from, var),
        Proc::Assign { index, var, expr } => assign(alloc, *index, var, expr),
        Proc::Read { index, var } => read(alloc, *index, var),
        Proc::Tell { messages } => tell(alloc, messages),
        Proc::Gather { keys } => gather(alloc, keys),
        _ => unreachable!(),
    }
}

/// The op of a process whose two parts stand at these places.
pub(crate) fn joining(alloc: Global, whole: &Proc, parts: (usize, usize)) -> Result<Op, Memory>
    requires { has_two (process whole.now) ≡ true }
    ensures { IfOk result (λ form. IsForm form (parts.0 ∷ parts.1 ∷ [])
        (λ done. with_two (process whole.now) (at done parts.0) (at done parts.1))) }
{
    match whole {
        Proc::Seq(..) => Ok(Op::Seq {
            first: parts.0,
            second: parts.1,
        }),
        Proc::Par(..) => Ok(Op::Par {
            left: parts.0,
            right: parts.1,
        }),
        Proc::IfLead {
            index,
            guard,
            others,
            ..
        } => lead_choice(alloc, *index, guard, others.copy(alloc)?, parts),
        Proc::IfFollow { index, leader, .. } => follow_choice(alloc, *index, leader, parts),
        _ => unreachable!(),
    }
}

/// The op of a loop or of a scope whose body stands at a place.
pub(crate) fn around(alloc: Global, whole: &Proc, body: usize) -> Result<Op, Memory>
    requires { has_body (process whole.now) ≡ true }
    ensures { IfOk result (λ form. IsForm form (body ∷ [])
        (λ done. with_body (process whole.now) (at done body))) }
{
    match whole {
        Proc::WhileLead {
            index,
            guard,
            others,
            ..
        } => lead_loop(alloc, *index, guard, others.copy(alloc)?, body),
        Proc::WhileFollow { index, leader, .. } => follow_loop(alloc, *index, leader, body),
        Proc::ScopeLead { head, others, .. } => {
            Ok(lead_scope(head.copy(alloc)?, others.copy(alloc)?, body))
        }
        Proc::ScopeFollow { index, leader, .. } => follow_scope(alloc, *index, leader, body),
        _ => unreachable!(),
    }
}

/// Sends the value of the expression.
pub(crate) fn send(
    alloc: Global,
    index: Index,
    op: &Name,
    to: &Role,
    expr: &Expr,
) -> Result<Op, Memory>
    ensures { IfOk result (λ form.
        IsForm form [] (λ done. Send index op.now to.now (expression expr.now))) }
{
    Ok(Op::Send {
        index,
        op: op.copy(alloc)?,
        to: to.copy(alloc)?,
        expr: expr.copy(alloc)?,
    })
}

/// Takes a value into the variable.
pub(crate) fn receive(
    alloc: Global,
    index: Index,
    op: &Name,
    from: &Role,
    var: &Name,
) -> Result<Op, Memory>
    ensures { IfOk result (λ form.
        IsForm form [] (λ done. Recv index op.now from.now var.now)) }
{
    Ok(Op::Recv {
        index,
        op: op.copy(alloc)?,
        from: from.copy(alloc)?,
        var: var.copy(alloc)?,
    })
}

/// Sets the variable to the value of the expression.
pub(crate) fn assign(alloc: Global, index: Index, var: &Name, expr: &Expr) -> Result<Op, Memory>
    ensures { IfOk result (λ form.
        IsForm form [] (λ done. Assign index var.now (expression expr.now))) }
{
    Ok(Op::Assign {
        index,
        var: var.copy(alloc)?,
        expr: expr.copy(alloc)?,
    })
}

/// Sets the variable to the next input.
pub(crate) fn read(alloc: Global, index: Index, var: &Name) -> Result<Op, Memory>
    ensures { IfOk result (λ form. IsForm form [] (λ done. Read index var.now)) }
{
    Ok(Op::Read {
        index,
        var: var.copy(alloc)?,
    })
}

/// Leads a choice between the processes at two places.
pub(crate) fn lead_choice(
    alloc: Global,
    index: Index,
    guard: &Expr,
    others: Roles,
    branches: (usize, usize),
) -> Result<Op, Memory>
    ensures { IfOk result (λ form. IsForm form (branches.0 ∷ branches.1 ∷ [])
        (λ done. IfLead index (expression guard.now) others (at done branches.0)
        (at done branches.1))) }
{
    Ok(Op::IfLead {
        index,
        guard: guard.copy(alloc)?,
        others,
        yes: branches.0,
        no: branches.1,
    })
}

/// Follows a choice between the processes at two places.
pub(crate) fn follow_choice(
    alloc: Global,
    index: Index,
    leader: &Role,
    branches: (usize, usize),
) -> Result<Op, Memory>
    ensures { IfOk result (λ form. IsForm form (branches.0 ∷ branches.1 ∷ [])
        (λ done. IfFollow index leader.now (at done branches.0) (at done branches.1))) }
{
    Ok(Op::IfFollow {
        index,
        leader: leader.copy(alloc)?,
        yes: branches.0,
        no: branches.1,
    })
}

/// Leads a loop whose body stands at a place.
pub(crate) fn lead_loop(
    alloc: Global,
    index: Index,
    guard: &Expr,
    others: Roles,
    body: usize,
) -> Result<Op, Memory>
    ensures { IfOk result (λ form. IsForm form (body ∷ [])
        (λ done. WhileLead index (expression guard.now) others (at done body))) }
{
    Ok(Op::WhileLead {
        index,
        guard: guard.copy(alloc)?,
        others,
        body,
    })
}

/// Follows a loop whose body stands at a place.
pub(crate) fn follow_loop(
    alloc: Global,
    index: Index,
    leader: &Role,
    body: usize,
) -> Result<Op, Memory>
    ensures { IfOk result (λ form. IsForm form (body ∷ [])
        (λ done. WhileFollow index leader.now (at done body))) }
{
    Ok(Op::WhileFollow {
        index,
        leader: leader.copy(alloc)?,
        body,
    })
}

/// Leads a scope whose body stands at a place.
pub(crate) fn lead_scope(head: ScopeHead, others: Roles, body: usize) -> Op
    ensures { IsForm result (body ∷ []) (λ done. ScopeLead head others (at done body)) }
{
    Op::ScopeLead { head, others, body }
}

/// Follows a scope whose body stands at a place.
pub(crate) fn follow_scope(
    alloc: Global,
    index: Index,
    leader: &Role,
    body: usize,
) -> Result<Op, Memory>
    ensures { IfOk result (λ form. IsForm form (body ∷ [])
        (λ done. ScopeFollow index leader.now (at done body))) }
{
    Ok(Op::ScopeFollow {
        index,
        leader: leader.copy(alloc)?,
        body,
    })
}

/// Sends the messages, one after another.
fn tell(alloc: Global, messages: &Messages) -> Result<Op, Memory>
    ensures { IfOk result (λ form. IsForm form [] (λ done. Tell (letters messages.now))) }
{
    Ok(Op::Tell {
        messages: messages.copy(alloc)?,
    })
}

/// Takes the messages of the keys, one after another.
fn gather(alloc: Global, keys: &Keys) -> Result<Op, Memory>
    ensures { IfOk result (λ form. IsForm form [] (λ done. Gather keys.now)) }
{
    Ok(Op::Gather {
        keys: keys.copy(alloc)?,
    })
}
