//! Processes as they are written.

ghost use Rattle.std.specs.Prelude.{◌≡◌, ◌++◌, true, codes, flat_map, OnOk, OnErr};
ghost use Rattle.dioc_terms.specs.Expressions.{expression};
ghost use Rattle.dioc_terms.specs.Processes.{process};
ghost use Rattle.text_pieces.specs.Pieces.{KeepsFront};
ghost use Rattle.trace_text.specs.Lines.{index_text};
ghost use Rattle.trace_text.specs.Process.{has_text, expression_text, next_role_text, roles_text, property_text, next_property_text, properties_text, tell_text, from_text, head_text, process_text};

use crate::pieces::{Written, write_indexed, write_three};
use dioc_terms::{Expr, Index, Memory, Name, Proc, Role, ScopeHead, Value};
use text_pieces::{Minus, cut_back, write_bytes, write_value};

/// Appends the text of a process. A sequence and a parallel stand in brackets; the constructs that
/// the role leads name whom it tells, the others from whom it hears.
///
/// No messages that are still to be sent or taken stand in it. Where memory runs out, `out` is as
/// it was.
pub fn write_process(proc: &Proc, out: &mut Vec<u8>) -> Result<(), Memory>
    requires { has_text (process proc.now) ≡ true }
    ensures ok { OnOk result (out.new.items ≡ out.old.items ++ process_text (process proc.now)) }
    ensures memory { OnErr result (out.new.items ≡ out.old.items) }
{
    let start = out.len();
    let written = write_part(proc, out);
    cut_back(written, start, out)
}

#[cycle(part)]
fn write_part(proc: &Proc, out: &mut Vec<u8>) -> Written
    requires { has_text (process proc.now) ≡ true }
    ensures ok { OnOk result (out.new.items ≡ out.old.items ++ process_text (process proc.now)) }
    ensures memory { OnErr result (KeepsFront out.old.items out.new.items) }
{
    write_head(proc, out)?;
    match proc {
        Proc::Seq(first, second) => {
            write_before(first, b"; ", out)?;
            write_before(second, b")", out)
        }
        Proc::Par(first, second) => {
            write_before(first, b" | ", out)?;
            write_before(second, b")", out)
        }
        Proc::IfLead { yes, no, .. } | Proc::IfFollow { yes, no, .. } => {
            write_bytes(b" { ", out)?;
            write_before(yes, b" } else { ", out)?;
            write_before(no, b" }", out)
        }
        Proc::WhileLead { body, .. }
        | Proc::WhileFollow { body, .. }
        | Proc::ScopeLead { body, .. }
        | Proc::ScopeFollow { body, .. } => {
            write_bytes(b" { ", out)?;
            write_before(body, b" }", out)
        }
        _ => Ok(()),
    }
}

/// A part of a process, and the sign behind it.
#[cycle(part)]
fn write_before(part: &Proc, sign: &[u8], out: &mut Vec<u8>) -> Written
    requires { has_text (process part.now) ≡ true }
    ensures ok { OnOk result (out.new.items ≡ out.old.items ++
        (process_text (process part.now) ++ sign.now)) }
    ensures memory { OnErr result (KeepsFront out.old.items out.new.items) }
{
    write_part(part, out)?;
    write_bytes(sign, out)
}

/// What stands before the parts of a process; of a step, its text.
fn write_head(proc: &Proc, out: &mut Vec<u8>) -> Written
    ensures ok { OnOk result (out.new.items ≡ out.old.items ++ head_text (process proc.now)) }
    ensures memory { OnErr result (KeepsFront out.old.items out.new.items) }
{
    match proc {
        Proc::Skip => write_bytes(b"skip", out),
        Proc::Send {
            index,
            op,
            to,
            expr,
        } => write_send(*index, op, to, expr, out),
        Proc::Recv {
            index,
            op,
            from,
            var,
        } => write_receive(*index, op, from, var, out),
        Proc::Assign { index, var, expr } => write_assignment(*index, var, expr, out),
        Proc::Read { index, var } => write_input(*index, var, out),
        Proc::Seq(_, _) | Proc::Par(_, _) => write_bytes(b"(", out),
        Proc::IfLead {
            index,
            guard,
            others,
            ..
        } => write_leading(b"if", *index, guard, others.as_slice(), out),
        Proc::IfFollow { index, leader, .. } => write_following(b"if", *index, leader, out),
        Proc::WhileLead {
            index,
            guard,
            others,
            ..
        } => write_leading(b"while", *index, guard, others.as_slice(), out),
        Proc::WhileFollow { index, leader, .. } => write_following(b"while", *index, leader, out),
        Proc::ScopeLead { head, others, .. } => write_scope(head, others.as_slice(), out),
        Proc::ScopeFollow { index, leader, .. } => write_following(b"scope", *index, leader, out),
        Proc::Tell { .. } | Proc::Gather { .. } => Ok(()),
    }
}

fn write_send(index: Index, op: &Name, to: &Role, expr: &Expr, out: &mut Vec<u8>) -> Written
    ensures ok { OnOk result (out.new.items ≡ out.old.items ++ (op.now ++ index_text index ++
        codes "(" ++ expression_text (expression expr.now) ++ codes ") to " ++ to.now.0)) }
    ensures memory { OnErr result (KeepsFront out.old.items out.new.items) }
{
    write_indexed(op.bytes(), index, out)?;
    write_bytes(b"(", out)?;
    write_expression(expr, out)?;
    write_bytes(b") to ", out)?;
    write_bytes(to.0.bytes(), out)
}

fn write_receive(index: Index, op: &Name, from: &Role, var: &Name, out: &mut Vec<u8>) -> Written
    ensures ok { OnOk result (out.new.items ≡ out.old.items ++ (op.now ++ index_text index ++
        codes "(" ++ var.now ++ codes ")" ++ from_text from.now)) }
    ensures memory { OnErr result (KeepsFront out.old.items out.new.items) }
{
    write_indexed(op.bytes(), index, out)?;
    write_three(b"(", var.bytes(), b")", out)?;
    write_from(from, out)
}

fn write_assignment(index: Index, var: &Name, expr: &Expr, out: &mut Vec<u8>) -> Written
    ensures ok { OnOk result (out.new.items ≡ out.old.items ++ (var.now ++ index_text index ++
        codes " = " ++ expression_text (expression expr.now))) }
    ensures memory { OnErr result (KeepsFront out.old.items out.new.items) }
{
    write_indexed(var.bytes(), index, out)?;
    write_bytes(b" = ", out)?;
    write_expression(expr, out)
}

fn write_input(index: Index, var: &Name, out: &mut Vec<u8>) -> Written
    ensures ok { OnOk result (out.new.items ≡ out.old.items ++ (var.now ++ index_text index ++
        codes " = input()")) }
    ensures memory { OnErr result (KeepsFront out.old.items out.new.items) }
{
    write_indexed(var.bytes(), index, out)?;
    write_bytes(b" = input()", out)
}

/// A construct that the role leads, by its word, up to its first part.
fn write_leading(
    word: &[u8],
    index: Index,
    guard: &Expr,
    others: &[Role],
    out: &mut Vec<u8>,
) -> Written
    ensures ok { OnOk result (out.new.items ≡ out.old.items ++ (word.now ++ index_text index ++
        codes " " ++ expression_text (expression guard.now) ++ tell_text others.now)) }
    ensures memory { OnErr result (KeepsFront out.old.items out.new.items) }
{
    write_indexed(word, index, out)?;
    write_bytes(b" ", out)?;
    write_expression(guard, out)?;
    write_tell(others, out)
}

/// A construct that another role leads, by its word, up to its first part.
fn write_following(word: &[u8], index: Index, leader: &Role, out: &mut Vec<u8>) -> Written
    ensures ok { OnOk result (out.new.items ≡ out.old.items ++ (word.now ++ index_text index ++
        from_text leader.now)) }
    ensures memory { OnErr result (KeepsFront out.old.items out.new.items) }
{
    write_indexed(word, index, out)?;
    write_from(leader, out)
}

/// A scope that the role leads, up to its body.
fn write_scope(head: &ScopeHead, others: &[Role], out: &mut Vec<u8>) -> Written
    ensures ok { OnOk result (out.new.items ≡ out.old.items ++ (codes "scope" ++
        index_text head.now.index ++ tell_text others.now ++ codes " prop [" ++
        properties_text head.now.props ++ codes "]")) }
    ensures memory { OnErr result (KeepsFront out.old.items out.new.items) }
{
    write_indexed(b"scope", head.index, out)?;
    write_tell(others, out)?;
    write_bytes(b" prop [", out)?;
    write_properties(head.props.as_slice(), out)?;
    write_bytes(b"]", out)
}

fn write_from(leader: &Role, out: &mut Vec<u8>) -> Written
    ensures ok { OnOk result (out.new.items ≡ out.old.items ++ from_text leader.now) }
    ensures memory { OnErr result (KeepsFront out.old.items out.new.items) }
{
    write_bytes(b" from ", out)?;
    write_bytes(leader.0.bytes(), out)
}

fn write_tell(others: &[Role], out: &mut Vec<u8>) -> Written
    ensures ok { OnOk result (out.new.items ≡ out.old.items ++ tell_text others.now) }
    ensures memory { OnErr result (KeepsFront out.old.items out.new.items) }
{
    write_bytes(b" tell [", out)?;
    write_roles(others, out)?;
    write_bytes(b"]", out)
}

fn write_roles(roles: &[Role], out: &mut Vec<u8>) -> Written
    ensures ok { OnOk result (out.new.items ≡ out.old.items ++ roles_text roles.now) }
    ensures memory { OnErr result (KeepsFront out.old.items out.new.items) }
{
    match roles {
        [] => Ok(()),
        [first, rest @ ..] => {
            write_bytes(first.0.bytes(), out)?;
            write_next_roles(rest, out)
        }
    }
}

#[tactic(auto, using(text_pieces::proofs::KeptFronts::front_of_front))]
fn write_next_roles(rest: &[Role], out: &mut Vec<u8>) -> Written
    ensures ok { OnOk result (out.new.items ≡ out.old.items ++ flat_map next_role_text rest.now) }
    ensures memory { OnErr result (KeepsFront out.old.items out.new.items) }
{
    for next in rest {
        write_next_role(next, out)?;
    }
    Ok(())
}

fn write_next_role(next: &Role, out: &mut Vec<u8>) -> Written
    ensures ok { OnOk result (out.new.items ≡ out.old.items ++ next_role_text next.now) }
    ensures memory { OnErr result (KeepsFront out.old.items out.new.items) }
{
    write_bytes(b", ", out)?;
    write_bytes(next.0.bytes(), out)
}

fn write_properties(props: &[(Name, Value)], out: &mut Vec<u8>) -> Written
    ensures ok { OnOk result (out.new.items ≡ out.old.items ++ properties_text props.now) }
    ensures memory { OnErr result (KeepsFront out.old.items out.new.items) }
{
    match props {
        [] => Ok(()),
        [first, rest @ ..] => {
            write_property(first, out)?;
            write_next_properties(rest, out)
        }
    }
}

#[tactic(auto, using(text_pieces::proofs::KeptFronts::front_of_front))]
fn write_next_properties(rest: &[(Name, Value)], out: &mut Vec<u8>) -> Written
    ensures ok { OnOk result (out.new.items ≡ out.old.items ++
        flat_map next_property_text rest.now) }
    ensures memory { OnErr result (KeepsFront out.old.items out.new.items) }
{
    for next in rest {
        write_next_property(next, out)?;
    }
    Ok(())
}

fn write_next_property(next: &(Name, Value), out: &mut Vec<u8>) -> Written
    ensures ok { OnOk result (out.new.items ≡ out.old.items ++ next_property_text next.now) }
    ensures memory { OnErr result (KeepsFront out.old.items out.new.items) }
{
    write_bytes(b", ", out)?;
    write_property(next, out)
}

fn write_property(property: &(Name, Value), out: &mut Vec<u8>) -> Written
    ensures ok { OnOk result (out.new.items ≡ out.old.items ++ property_text property.now) }
    ensures memory { OnErr result (KeepsFront out.old.items out.new.items) }
{
    write_bytes(property.0.bytes(), out)?;
    write_bytes(b" = ", out)?;
    write_value(&property.1, Minus::Close, out)
}

fn write_expression(expr: &Expr, out: &mut Vec<u8>) -> Written
    ensures ok { OnOk result (out.new.items ≡ out.old.items ++
        expression_text (expression expr.now)) }
    ensures memory { OnErr result (KeepsFront out.old.items out.new.items) }
{
    expr_syntax::write_expr(expr, out)
}
