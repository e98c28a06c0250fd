//! Choreographies that were read.

ghost use Rattle.std.specs.Prelude.{◌≡◌, ◌+◌, ◌-◌, ◌<◌, ◌^◌, suc, max, None, Err, IfOk};
ghost use Rattle.dioc_terms.specs.Expressions.{expression};
ghost use Rattle.dioc_terms.specs.Terms.{term, index_at, Seq, Par, If, While, Scope};

use crate::guards::Guard;
use dioc_terms::{Bindings, Choreo, Index, Memory, Role, Roles, new_box};
use std::alloc::Global;

/// A choreography that was read.
#[derive(Drop)]
pub struct FoundChoreo {
    /// The choreography, marked as its text is. It is put into its box where it is made, so that
    /// what is handed on is small.
    pub choreo: Box<Choreo>,
    /// The depth of its tree.
    pub depth: usize,
    /// The place behind it.
    pub at: usize,
    /// How many indexed constructs begin before what follows it.
    pub next: u32,
}

/// Lets go of what turned out to be no part of a choreography.
pub fn nothing_found<T: Drop>(_value: T) -> Option<FoundChoreo>
    ensures { result ≡ None }
{
    None
}

/// Two sequences side by side.
pub fn parallel_of(
    alloc: Global,
    first: FoundChoreo,
    second: FoundChoreo,
) -> Result<FoundChoreo, Memory>
    requires first { first.depth < 2 ^ 64 - 1 }
    requires second { second.depth < 2 ^ 64 - 1 }
    ensures choreo { IfOk result (λ found. term found.choreo.value
        ≡ Par (term first.choreo.value) (term second.choreo.value)) }
    ensures depth { IfOk result (λ found. found.depth ≡ suc (max first.depth second.depth)) }
    ensures at { IfOk result (λ found. found.at ≡ second.at) }
    ensures next { IfOk result (λ found. found.next ≡ second.next) }
{
    let depth = first.depth.max(second.depth) + 1;
    let (at, next) = (second.at, second.next);
    let choreo = new_box(alloc, Choreo::Par(first.choreo, second.choreo))?;
    Ok(FoundChoreo {
        choreo,
        depth,
        at,
        next,
    })
}

/// A step and the sequence after it.
pub fn sequence_of(
    alloc: Global,
    first: FoundChoreo,
    second: FoundChoreo,
) -> Result<FoundChoreo, Memory>
    requires first { first.depth < 2 ^ 64 - 1 }
    requires second { second.depth < 2 ^ 64 - 1 }
    ensures choreo { IfOk result (λ found. term found.choreo.value
        ≡ Seq (term first.choreo.value) (term second.choreo.value)) }
    ensures depth { IfOk result (λ found. found.depth ≡ suc (max first.depth second.depth)) }
    ensures at { IfOk result (λ found. found.at ≡ second.at) }
    ensures next { IfOk result (λ found. found.next ≡ second.next) }
{
    let depth = first.depth.max(second.depth) + 1;
    let (at, next) = (second.at, second.next);
    let choreo = new_box(alloc, Choreo::Seq(first.choreo, second.choreo))?;
    Ok(FoundChoreo {
        choreo,
        depth,
        at,
        next,
    })
}

/// A choice between two branches.
pub fn choice_of(
    alloc: Global,
    guard: Guard,
    earlier: u32,
    first: FoundChoreo,
    second: FoundChoreo,
) -> Result<FoundChoreo, Memory>
    requires first { first.depth < 2 ^ 64 - 1 }
    requires second { second.depth < 2 ^ 64 - 1 }
    ensures choreo { IfOk result (λ found. term found.choreo.value
        ≡ If (index_at earlier) guard.leader (expression guard.expr) (term first.choreo.value)
        (term second.choreo.value)) }
    ensures depth { IfOk result (λ found. found.depth ≡ suc (max first.depth second.depth)) }
    ensures at { IfOk result (λ found. found.at ≡ second.at) }
    ensures next { IfOk result (λ found. found.next ≡ second.next) }
{
    let depth = first.depth.max(second.depth) + 1;
    let (at, next) = (second.at, second.next);
    let choice = Choreo::If {
        index: Index {
            epoch: 0,
            place: earlier,
        },
        leader: guard.leader,
        guard: guard.expr,
        yes: first.choreo,
        no: second.choreo,
    };
    let choreo = new_box(alloc, choice)?;
    Ok(FoundChoreo {
        choreo,
        depth,
        at,
        next,
    })
}

/// A loop around its body.
pub fn loop_of(
    alloc: Global,
    guard: Guard,
    earlier: u32,
    inner: FoundChoreo,
) -> Result<FoundChoreo, Memory>
    requires { inner.depth < 2 ^ 64 - 1 }
    ensures choreo { IfOk result (λ found. term found.choreo.value
        ≡ While (index_at earlier) guard.leader (expression guard.expr) (term inner.choreo.value)) }
    ensures depth { IfOk result (λ found. found.depth ≡ suc inner.depth) }
    ensures at { IfOk result (λ found. found.at ≡ inner.at) }
    ensures next { IfOk result (λ found. found.next ≡ inner.next) }
{
    let (depth, at, next) = (inner.depth + 1, inner.at, inner.next);
    let repeated = Choreo::While {
        index: Index {
            epoch: 0,
            place: earlier,
        },
        leader: guard.leader,
        guard: guard.expr,
        body: inner.choreo,
    };
    let choreo = new_box(alloc, repeated)?;
    Ok(FoundChoreo {
        choreo,
        depth,
        at,
        next,
    })
}

/// What a scope has beside its body.
#[derive(Drop)]
pub struct ScopeParts {
    pub leader: Role,
    pub extra: Roles,
    pub props: Bindings,
    /// The place behind them.
    pub at: usize,
}

/// A scope around its body.
pub fn scope_of(
    alloc: Global,
    parts: ScopeParts,
    earlier: u32,
    inner: FoundChoreo,
) -> Result<FoundChoreo, Memory>
    requires { inner.depth < 2 ^ 64 - 1 }
    ensures choreo { IfOk result (λ found. term found.choreo.value
        ≡ Scope (index_at earlier) parts.leader (term inner.choreo.value) parts.extra parts.props
        0) }
    ensures depth { IfOk result (λ found. found.depth ≡ suc inner.depth) }
    ensures at { IfOk result (λ found. found.at ≡ parts.at) }
    ensures next { IfOk result (λ found. found.next ≡ inner.next) }
{
    let (depth, at, next) = (inner.depth + 1, parts.at, inner.next);
    let scope = Choreo::Scope {
        index: Index {
            epoch: 0,
            place: earlier,
        },
        leader: parts.leader,
        body: inner.choreo,
        extra: parts.extra,
        props: parts.props,
        level: 0,
    };
    let choreo = new_box(alloc, scope)?;
    Ok(FoundChoreo {
        choreo,
        depth,
        at,
        next,
    })
}
