//! The forms of a process, each made of copies of what it names.

ghost use Rattle.std.specs.Prelude.{◌≡◌, IfOk};
ghost use Rattle.dioc_terms.specs.Expressions.{expression};
ghost use Rattle.dioc_terms.specs.Processes.{process, Send, Recv, Assign, Read, IfLead, IfFollow, WhileLead, WhileFollow, ScopeFollow};

use crate::copies::copy_both;
use crate::expressions::Expr;
use crate::faults::Memory;
use crate::lists::Roles;
use crate::names::{Index, Name, Role};
use crate::processes::Proc;
use std::alloc::Global;

impl Proc {
    /// Sends the value of the expression.
    pub fn send(
        alloc: Global,
        index: Index,
        op: &Name,
        to: &Role,
        expr: &Expr,
    ) -> Result<Proc, Memory>
        ensures { IfOk result (λ proc. process proc ≡ Send index op.now to.now
            (expression expr.now)) }
    {
        let (op, to) = copy_both(alloc, op, to)?;
        Ok(Proc::Send {
            index,
            op,
            to,
            expr: expr.copy(alloc)?,
        })
    }

    /// Takes a value into the variable.
    pub fn receive(
        alloc: Global,
        index: Index,
        op: &Name,
        from: &Role,
        var: &Name,
    ) -> Result<Proc, Memory>
        ensures { IfOk result (λ proc. process proc ≡ Recv index op.now from.now var.now) }
    {
        let op = op.copy(alloc)?;
        let (from, var) = copy_both(alloc, from, var)?;
        Ok(Proc::Recv {
            index,
            op,
            from,
            var,
        })
    }

    /// Sets the variable to the value of the expression.
    pub fn assign(alloc: Global, index: Index, var: &Name, expr: &Expr) -> Result<Proc, Memory>
        ensures { IfOk result (λ proc. process proc ≡ Assign index var.now (expression expr.now)) }
    {
        Ok(Proc::Assign {
            index,
            var: var.copy(alloc)?,
            expr: expr.copy(alloc)?,
        })
    }

    /// Sets the variable to the next input.
    pub fn read(alloc: Global, index: Index, var: &Name) -> Result<Proc, Memory>
        ensures { IfOk result (λ proc. process proc ≡ Read index var.now) }
    {
        Ok(Proc::Read {
            index,
            var: var.copy(alloc)?,
        })
    }

    /// Leads a choice.
    pub fn lead_choice(
        alloc: Global,
        index: Index,
        guard: &Expr,
        others: Roles,
        yes: Box<Proc>,
        no: Box<Proc>,
    ) -> Result<Proc, Memory>
        ensures { IfOk result (λ proc. process proc ≡ IfLead index (expression guard.now) others
            (process yes.value) (process no.value)) }
    {
        Ok(Proc::IfLead {
            index,
            guard: guard.copy(alloc)?,
            others,
            yes,
            no,
        })
    }

    /// Follows the leader of a choice.
    pub fn follow_choice(
        alloc: Global,
        index: Index,
        leader: &Role,
        yes: Box<Proc>,
        no: Box<Proc>,
    ) -> Result<Proc, Memory>
        ensures { IfOk result (λ proc. process proc ≡ IfFollow index leader.now (process yes.value)
            (process no.value)) }
    {
        Ok(Proc::IfFollow {
            index,
            leader: leader.copy(alloc)?,
            yes,
            no,
        })
    }

    /// Leads a loop.
    pub fn lead_loop(
        alloc: Global,
        index: Index,
        guard: &Expr,
        others: Roles,
        body: Box<Proc>,
    ) -> Result<Proc, Memory>
        ensures { IfOk result (λ proc. process proc ≡ WhileLead index (expression guard.now) others
            (process body.value)) }
    {
        Ok(Proc::WhileLead {
            index,
            guard: guard.copy(alloc)?,
            others,
            body,
        })
    }

    /// Follows the leader of a loop.
    pub fn follow_loop(
        alloc: Global,
        index: Index,
        leader: &Role,
        body: Box<Proc>,
    ) -> Result<Proc, Memory>
        ensures { IfOk result (λ proc. process proc ≡ WhileFollow index leader.now
            (process body.value)) }
    {
        Ok(Proc::WhileFollow {
            index,
            leader: leader.copy(alloc)?,
            body,
        })
    }

    /// Follows the leader of a scope.
    pub fn follow_scope(
        alloc: Global,
        index: Index,
        leader: &Role,
        body: Box<Proc>,
    ) -> Result<Proc, Memory>
        ensures { IfOk result (λ proc. process proc ≡ ScopeFollow index leader.now
            (process body.value)) }
    {
        Ok(Proc::ScopeFollow {
            index,
            leader: leader.copy(alloc)?,
            body,
        })
    }
}
