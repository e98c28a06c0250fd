//! Choreographies.

ghost use Rattle.std.specs.Prelude.{◌≡◌, true, IfOk};
ghost use Rattle.dioc_terms.specs.Expressions.{expression};
ghost use Rattle.dioc_terms.specs.Leaves.{is_leaf_term};
ghost use Rattle.dioc_terms.specs.Terms.{term, Com, Set, Input, If, While, Scope};

use crate::copies::{copy_both, new_box};
use crate::expressions::Expr;
use crate::faults::Memory;
use crate::lists::{Bindings, Roles};
use crate::names::{Index, Name, Role};
use std::alloc::Global;

/// A choreography: one global program of all roles.
pub enum Choreo {
    /// Nothing.
    Skip,
    /// `from` sends the value of `expr`, and `to` keeps it in `var`.
    Com {
        index: Index,
        op: Name,
        from: Role,
        expr: Expr,
        to: Role,
        var: Name,
    },
    /// `role` sets `var` to the value of `expr`.
    Set {
        index: Index,
        var: Name,
        role: Role,
        expr: Expr,
    },
    /// `role` sets `var` to its next input.
    Input {
        index: Index,
        var: Name,
        role: Role,
    },
    /// The first, and then the second.
    Seq(Box<Choreo>, Box<Choreo>),
    /// Both, side by side.
    Par(Box<Choreo>, Box<Choreo>),
    /// `leader` picks a branch by `guard`.
    If {
        index: Index,
        leader: Role,
        guard: Expr,
        yes: Box<Choreo>,
        no: Box<Choreo>,
    },
    /// `leader` picks by `guard` before each turn of `body`.
    While {
        index: Index,
        leader: Role,
        guard: Expr,
        body: Box<Choreo>,
    },
    /// A part that a rule may replace when `leader` begins it. Its roles are the leader, the roles
    /// of its body and those that `extra` names.
    Scope {
        index: Index,
        leader: Role,
        body: Box<Choreo>,
        extra: Roles,
        props: Bindings,
        level: u32,
    },
}

impl Drop for Choreo {
    fn drop(self) {
        match self {
            Choreo::Seq(_, _) => {}
            Choreo::Par(_, _) => {}
            Choreo::If {
                index: _,
                leader: _,
                guard: _,
                yes: _,
                no: _,
            } => {}
            Choreo::While {
                index: _,
                leader: _,
                guard: _,
                body: _,
            } => {}
            Choreo::Scope {
                index: _,
                leader: _,
                body: _,
                extra: _,
                props: _,
                level: _,
            } => {}
            leaf => leaf.drop_leaf(),
        }
    }
}

impl Choreo {
    /// Lets go of a term with no term inside.
    fn drop_leaf(self)
        requires { is_leaf_term (term self) ≡ true }
    {
        match self {
            Choreo::Skip => {}
            Choreo::Com {
                index: _,
                op: _,
                from: _,
                expr: _,
                to: _,
                var: _,
            } => {}
            Choreo::Set {
                index: _,
                var: _,
                role: _,
                expr: _,
            } => {}
            Choreo::Input {
                index: _,
                var: _,
                role: _,
            } => {}
            _ => unreachable!(),
        }
    }

    /// A copy, the same term.
    #[cycle(copy_choreo)]
    pub fn copy(&self, alloc: Global) -> Result<Choreo, Memory>
        ensures { IfOk result (λ copy. term copy ≡ term self.now) }
    {
        match self {
            Choreo::Seq(left, right) => Ok(Choreo::Seq(left.to_box(alloc)?, right.to_box(alloc)?)),
            Choreo::Par(left, right) => Ok(Choreo::Par(left.to_box(alloc)?, right.to_box(alloc)?)),
            Choreo::If {
                index,
                leader,
                guard,
                yes,
                no,
            } => {
                let yes = yes.to_box(alloc)?;
                let no = no.to_box(alloc)?;
                copy_of_if(alloc, *index, leader, guard, yes, no)
            }
            Choreo::While {
                index,
                leader,
                guard,
                body,
            } => copy_of_while(alloc, *index, leader, guard, body.to_box(alloc)?),
            Choreo::Scope {
                index,
                leader,
                body,
                extra,
                props,
                level,
            } => {
                let body = body.to_box(alloc)?;
                copy_of_scope(alloc, *index, leader, body, extra, props, *level)
            }
            leaf => copy_of_leaf(alloc, leaf),
        }
    }

    /// A copy in a box.
    #[cycle(copy_choreo)]
    fn to_box(&self, alloc: Global) -> Result<Box<Choreo>, Memory>
        ensures { IfOk result (λ copy. term copy.value ≡ term self.now) }
    {
        new_box(alloc, self.copy(alloc)?)
    }
}

/// A copy of a term with no term inside.
fn copy_of_leaf(alloc: Global, leaf: &Choreo) -> Result<Choreo, Memory>
    requires { is_leaf_term (term leaf.now) ≡ true }
    ensures { IfOk result (λ copy. term copy ≡ term leaf.now) }
{
    match leaf {
        Choreo::Skip => Ok(Choreo::Skip),
        Choreo::Com {
            index,
            op,
            from,
            expr,
            to,
            var,
        } => copy_of_com(alloc, *index, op, from, expr, to, var),
        Choreo::Set {
            index,
            var,
            role,
            expr,
        } => copy_of_set(alloc, *index, var, role, expr),
        Choreo::Input { index, var, role } => copy_of_input(alloc, *index, var, role),
        _ => unreachable!(),
    }
}

fn copy_of_com(
    alloc: Global,
    index: Index,
    op: &Name,
    from: &Role,
    expr: &Expr,
    to: &Role,
    var: &Name,
) -> Result<Choreo, Memory>
    ensures { IfOk result (λ copy. term copy ≡ Com index op.now from.now (expression expr.now)
        to.now var.now) }
{
    let (op, var) = copy_both(alloc, op, var)?;
    let (from, to) = copy_both(alloc, from, to)?;
    Ok(Choreo::Com {
        index,
        op,
        from,
        expr: expr.copy(alloc)?,
        to,
        var,
    })
}

fn copy_of_set(
    alloc: Global,
    index: Index,
    var: &Name,
    role: &Role,
    expr: &Expr,
) -> Result<Choreo, Memory>
    ensures { IfOk result (λ copy. term copy ≡ Set index var.now role.now (expression expr.now)) }
{
    let (var, role) = copy_both(alloc, var, role)?;
    Ok(Choreo::Set {
        index,
        var,
        role,
        expr: expr.copy(alloc)?,
    })
}

fn copy_of_input(alloc: Global, index: Index, var: &Name, role: &Role) -> Result<Choreo, Memory>
    ensures { IfOk result (λ copy. term copy ≡ Input index var.now role.now) }
{
    Ok(Choreo::Input {
        index,
        var: var.copy(alloc)?,
        role: role.copy(alloc)?,
    })
}

fn copy_of_if(
    alloc: Global,
    index: Index,
    leader: &Role,
    guard: &Expr,
    yes: Box<Choreo>,
    no: Box<Choreo>,
) -> Result<Choreo, Memory>
    ensures { IfOk result (λ copy. term copy ≡ If index leader.now (expression guard.now)
        (term yes.value) (term no.value)) }
{
    Ok(Choreo::If {
        index,
        leader: leader.copy(alloc)?,
        guard: guard.copy(alloc)?,
        yes,
        no,
    })
}

fn copy_of_while(
    alloc: Global,
    index: Index,
    leader: &Role,
    guard: &Expr,
    body: Box<Choreo>,
) -> Result<Choreo, Memory>
    ensures { IfOk result (λ copy. term copy ≡ While index leader.now (expression guard.now)
        (term body.value)) }
{
    Ok(Choreo::While {
        index,
        leader: leader.copy(alloc)?,
        guard: guard.copy(alloc)?,
        body,
    })
}

fn copy_of_scope(
    alloc: Global,
    index: Index,
    leader: &Role,
    body: Box<Choreo>,
    extra: &Roles,
    props: &Bindings,
    level: u32,
) -> Result<Choreo, Memory>
    ensures { IfOk result (λ copy. term copy ≡ Scope index leader.now (term body.value) extra.now
        props.now level) }
{
    Ok(Choreo::Scope {
        index,
        leader: leader.copy(alloc)?,
        body,
        extra: extra.copy(alloc)?,
        props: props.copy(alloc)?,
        level,
    })
}
