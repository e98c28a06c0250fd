//! From a process to its code.

ghost use Rattle.std.specs.Prelude.{◌≡◌, true, length, IfOk, OnErr};
ghost use Rattle.dioc_terms.specs.Processes.{process};
ghost use Rattle.flat_code.specs.Codes.{process_of};
ghost use Rattle.dioc_terms.specs.Parts.{body_of, first_of, has_body, has_two, second_of};
ghost use Rattle.flat_code.specs.Layout.{AreAdded, IsAdded, IsPushed, TwoAreAdded};
ghost use Rattle.flat_code.specs.Places.{AreBelow, Extends, IsProcessAt, are_placed, part_places};

use crate::code::Code;
use crate::forms::{around, joining, without_parts};
use crate::ops::Op;
use dioc_terms::{Memory, Proc, give_up};
use std::alloc::Global;

/// The code that stands for a process. Its time and its memory are those of the process's size; the
/// error is want of memory.
#[tactic(auto, using(crate::proofs::LayoutLemmas::added_laid))]
pub fn compile(alloc: Global, proc: &Proc) -> Result<Code, Memory>
    ensures { IfOk result (λ code. process_of code ≡ process proc.now) }
{
    let mut ops = Vec::new(alloc);
    match add(alloc, proc, &mut ops) {
        Ok(start) => Ok(Code { ops, start }),
        Err(fault) => give_up(ops, fault),
    }
}

/// Appends the ops of a process to code, and gives the place at which the process stands. The code
/// keeps its ops and its beginning; the error is want of memory, and then no op was added.
#[tactic(auto, using(crate::proofs::LayoutLemmas::linking_rules))]
pub fn link(alloc: Global, code: &mut Code, proc: &Proc) -> Result<usize, Memory>
    ensures appended { Extends code.old.ops.items code.new.ops.items }
    ensures start { code.new.start ≡ code.old.start }
    ensures stands { IfOk result (λ place. IsProcessAt code.new.ops.items place
        (process proc.now)) }
    ensures refused { OnErr result (code.new.ops.items ≡ code.old.ops.items) }
{
    let before = code.ops.len();
    match add(alloc, proc, &mut code.ops) {
        Ok(place) => Ok(place),
        Err(fault) => {
            code.ops.truncate(before);
            Err(fault)
        }
    }
}

/// Appends the ops of a process, its parts first, and gives the place of the whole.
#[cycle(compiled)]
#[tactic(auto, using(crate::proofs::LayoutLemmas::added_pushed))]
fn add(alloc: Global, proc: &Proc, ops: &mut Vec<Op>) -> Result<usize, Memory>
    requires placed { are_placed 0 ops.old.items ≡ true }
    ensures placed { are_placed 0 ops.new.items ≡ true }
    ensures appended { Extends ops.old.items ops.new.items }
    ensures added { IfOk result (λ place.
        IsAdded ops.old.items ops.new.items place (process proc.now)) }
{
    let op = add_parts(alloc, proc, ops)?;
    push(ops, op)
}

/// Appends the ops of the parts of a process, and gives the op of the whole.
#[cycle(compiled)]
fn add_parts(alloc: Global, proc: &Proc, ops: &mut Vec<Op>) -> Result<Op, Memory>
    requires placed { are_placed 0 ops.old.items ≡ true }
    ensures placed { are_placed 0 ops.new.items ≡ true }
    ensures appended { Extends ops.old.items ops.new.items }
    ensures added { IfOk result (λ op.
        AreAdded ops.old.items ops.new.items op (process proc.now)) }
{
    match proc {
        Proc::Seq(..) | Proc::Par(..) | Proc::IfLead { .. } | Proc::IfFollow { .. } => {
            let places = add_two(alloc, proc, ops)?;
            joining(alloc, proc, places)
        }
        Proc::WhileLead { .. }
        | Proc::WhileFollow { .. }
        | Proc::ScopeLead { .. }
        | Proc::ScopeFollow { .. } => {
            let body = add_body(alloc, proc, ops)?;
            around(alloc, proc, body)
        }
        other => without_parts(alloc, other),
    }
}

/// Appends the ops of the two parts of a process, one after the other, and gives their places.
#[cycle(compiled)]
#[tactic(auto, using(crate::proofs::LayoutLemmas::adding_rules))]
fn add_two(alloc: Global, whole: &Proc, ops: &mut Vec<Op>) -> Result<(usize, usize), Memory>
    requires two { has_two (process whole.now) ≡ true }
    requires placed { are_placed 0 ops.old.items ≡ true }
    ensures placed { are_placed 0 ops.new.items ≡ true }
    ensures appended { Extends ops.old.items ops.new.items }
    ensures added { IfOk result (λ both. TwoAreAdded ops.old.items ops.new.items both.0 both.1
        (first_of (process whole.now)) (second_of (process whole.now))) }
{
    match whole {
        Proc::Seq(first, second)
        | Proc::Par(first, second)
        | Proc::IfLead {
            yes: first,
            no: second,
            ..
        }
        | Proc::IfFollow {
            yes: first,
            no: second,
            ..
        } => {
            let first = add(alloc, first, ops)?;
            let second = add(alloc, second, ops)?;
            Ok((first, second))
        }
        _ => unreachable!(),
    }
}

/// Appends the ops of the body of a process, and gives its place.
#[cycle(compiled)]
fn add_body(alloc: Global, whole: &Proc, ops: &mut Vec<Op>) -> Result<usize, Memory>
    requires one { has_body (process whole.now) ≡ true }
    requires placed { are_placed 0 ops.old.items ≡ true }
    ensures placed { are_placed 0 ops.new.items ≡ true }
    ensures appended { Extends ops.old.items ops.new.items }
    ensures added { IfOk result (λ place.
        IsAdded ops.old.items ops.new.items place (body_of (process whole.now))) }
{
    match whole {
        Proc::WhileLead { body, .. }
        | Proc::WhileFollow { body, .. }
        | Proc::ScopeLead { body, .. }
        | Proc::ScopeFollow { body, .. } => add(alloc, body, ops),
        _ => unreachable!(),
    }
}

/// Appends an op whose parts stand before it, and gives its place.
pub(crate) fn push(ops: &mut Vec<Op>, op: Op) -> Result<usize, Memory>
    requires placed { are_placed 0 ops.old.items ≡ true }
    requires earlier { AreBelow (length ops.old.items) (part_places op) }
    ensures placed { are_placed 0 ops.new.items ≡ true }
    ensures appended { Extends ops.old.items ops.new.items }
    ensures pushed { IfOk result (IsPushed ops.old.items ops.new.items op) }
{
    let place = ops.len();
    ops.push(op)?;
    Ok(place)
}
