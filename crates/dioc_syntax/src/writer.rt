//! Choreographies as they are written.

ghost use Rattle.std.specs.Prelude.{◌≡◌, ◌++◌, [], codes, OnOk, OnErr};
ghost use Rattle.std.specs.List.{flat_map};
ghost use Rattle.dioc_terms.specs.Expressions.{expression};
ghost use Rattle.dioc_terms.specs.Terms.{term};
ghost use Rattle.aioc_tokens.specs.Spelling.{spelled};
ghost use Rattle.text_pieces.specs.Pieces.{KeepsFront};
ghost use Rattle.expr_syntax.specs.Pieces.{opening_text, closing_text};
ghost use Rattle.dioc_syntax.specs.Writing.{is_joined, is_parallel, written};
ghost use Rattle.dioc_syntax.specs.Pieces.{expression_text, next_role_text, roles_text, property_text, next_property_text, properties_text, receiver_text, target_text, leader_text, between_text, head_text, choreography_text};

use dioc_terms::{Choreo, Expr, Memory, Name, Role, Value};
use expr_syntax::{write_expr, write_value};
use text_pieces::{cut_back, write_bytes};

/// Appends the text of a choreography: its tokens with one space between two. The left part of a
/// sequence is in brackets where it is a sequence or a parallel, its right part where it is a
/// parallel, and so is the left part of a parallel. An `if` always has its `else`; a scope without
/// further roles has no `roles`, one without properties no `prop`.
///
/// Where memory runs out, `out` is as it was.
pub fn write_choreo(choreo: &Choreo, out: &mut Vec<u8>) -> Result<(), Memory>
    ensures ok { OnOk result (out.new.items ≡ out.old.items
        ++ spelled (written (term choreo.now) [])) }
    ensures memory { OnErr result (out.new.items ≡ out.old.items) }
{
    let start = out.len();
    let written = write_part(choreo, out);
    cut_back(written, start, out)
}

#[cycle(part)]
fn write_part(choreo: &Choreo, out: &mut Vec<u8>) -> Result<(), Memory>
    ensures ok { OnOk result (out.new.items ≡ out.old.items
        ++ choreography_text (term choreo.now)) }
    ensures memory { OnErr result (KeepsFront out.old.items out.new.items) }
{
    write_head(choreo, out)?;
    match choreo {
        Choreo::Skip | Choreo::Com { .. } | Choreo::Set { .. } | Choreo::Input { .. } => Ok(()),
        Choreo::Seq(first, second) => {
            let right = is_parallel(second);
            write_part(first, out)?;
            write_between(is_joined(first), b" ; ", right, out)?;
            write_before(second, closing(right), out)
        }
        Choreo::Par(first, second) => {
            write_part(first, out)?;
            write_between(is_parallel(first), b" | ", false, out)?;
            write_part(second, out)
        }
        Choreo::If { yes, no, .. } => {
            write_before(yes, b" } else { ", out)?;
            write_before(no, b" }", out)
        }
        Choreo::While { body, .. } => write_before(body, b" }", out),
        Choreo::Scope {
            body,
            extra,
            props,
            ..
        } => {
            write_before(body, b" }", out)?;
            write_roles(extra.as_slice(), out)?;
            write_properties(props.as_slice(), out)
        }
    }
}

/// A part of a choreography, and the sign behind it.
#[cycle(part)]
fn write_before(part: &Choreo, sign: &[u8], out: &mut Vec<u8>) -> Result<(), Memory>
    ensures ok { OnOk result (out.new.items ≡ out.old.items
        ++ (choreography_text (term part.now) ++ sign.now)) }
    ensures memory { OnErr result (KeepsFront out.old.items out.new.items) }
{
    write_part(part, out)?;
    write_bytes(sign, out)
}

/// What stands before the parts of a choreography; of a step, its text.
fn write_head(choreo: &Choreo, out: &mut Vec<u8>) -> Result<(), Memory>
    ensures ok { OnOk result (out.new.items ≡ out.old.items ++ head_text (term choreo.now)) }
    ensures memory { OnErr result (KeepsFront out.old.items out.new.items) }
{
    match choreo {
        Choreo::Skip => write_bytes(b"skip", out),
        Choreo::Com {
            op,
            from,
            expr,
            to,
            var,
            ..
        } => write_interaction(op, from, expr, to, var, out),
        Choreo::Set {
            var,
            role,
            expr,
            ..
        } => {
            write_target(var, role, out)?;
            write_expression(expr, out)
        }
        Choreo::Input { var, role, .. } => {
            write_target(var, role, out)?;
            write_bytes(b"input ( )", out)
        }
        Choreo::Seq(first, _) => write_bytes(opening(is_joined(first)), out),
        Choreo::Par(first, _) => write_bytes(opening(is_parallel(first)), out),
        Choreo::If { leader, guard, .. } => write_guarded(b"if ", guard, leader, out),
        Choreo::While { leader, guard, .. } => write_guarded(b"while ", guard, leader, out),
        Choreo::Scope { leader, .. } => {
            write_bytes(b"scope", out)?;
            write_leader(leader, out)
        }
    }
}

/// Whether it is a sequence or a parallel.
fn is_joined(choreo: &Choreo) -> bool
    ensures { result ≡ is_joined (term choreo.now) }
{
    matches!(choreo, Choreo::Seq(_, _) | Choreo::Par(_, _))
}

fn is_parallel(choreo: &Choreo) -> bool
    ensures { result ≡ is_parallel (term choreo.now) }
{
    matches!(choreo, Choreo::Par(_, _))
}

fn write_interaction(
    op: &Name,
    from: &Role,
    expr: &Expr,
    to: &Role,
    var: &Name,
    out: &mut Vec<u8>,
) -> Result<(), Memory>
    ensures ok { OnOk result (out.new.items ≡ out.old.items
        ++ (op.now ++ codes " : " ++ from.now.0
        ++ codes " ( " ++ expression_text (expression expr.now) ++ receiver_text to.now var.now)) }
    ensures memory { OnErr result (KeepsFront out.old.items out.new.items) }
{
    write_three(op.bytes(), b" : ", from.0.bytes(), out)?;
    write_bytes(b" ( ", out)?;
    write_expression(expr, out)?;
    write_receiver(to, var, out)
}

fn write_receiver(to: &Role, var: &Name, out: &mut Vec<u8>) -> Result<(), Memory>
    ensures ok { OnOk result (out.new.items ≡ out.old.items ++ receiver_text to.now var.now) }
    ensures memory { OnErr result (KeepsFront out.old.items out.new.items) }
{
    write_three(b" ) -> ", to.0.bytes(), b" ( ", out)?;
    write_bytes(var.bytes(), out)?;
    write_bytes(b" )", out)
}

/// A variable, the role that has it, and the sign behind them.
fn write_target(var: &Name, role: &Role, out: &mut Vec<u8>) -> Result<(), Memory>
    ensures ok { OnOk result (out.new.items ≡ out.old.items ++ target_text var.now role.now) }
    ensures memory { OnErr result (KeepsFront out.old.items out.new.items) }
{
    write_three(var.bytes(), b" @ ", role.0.bytes(), out)?;
    write_bytes(b" = ", out)
}

/// A leader, up to the bracket of what it leads.
fn write_leader(leader: &Role, out: &mut Vec<u8>) -> Result<(), Memory>
    ensures ok { OnOk result (out.new.items ≡ out.old.items ++ leader_text leader.now) }
    ensures memory { OnErr result (KeepsFront out.old.items out.new.items) }
{
    write_three(b" @ ", leader.0.bytes(), b" { ", out)
}

/// A word, a guard and a leader.
fn write_guarded(word: &[u8], guard: &Expr, leader: &Role, out: &mut Vec<u8>) -> Result<(), Memory>
    ensures ok { OnOk result (out.new.items ≡ out.old.items
        ++ (word.now ++ expression_text (expression guard.now) ++ leader_text leader.now)) }
    ensures memory { OnErr result (KeepsFront out.old.items out.new.items) }
{
    write_bytes(word, out)?;
    write_expression(guard, out)?;
    write_leader(leader, out)
}

fn write_roles(extra: &[Role], out: &mut Vec<u8>) -> Result<(), Memory>
    ensures ok { OnOk result (out.new.items ≡ out.old.items ++ roles_text extra.now) }
    ensures memory { OnErr result (KeepsFront out.old.items out.new.items) }
{
    match extra {
        [] => Ok(()),
        [first, rest @ ..] => {
            write_bytes(b" roles { ", out)?;
            write_bytes(first.0.bytes(), out)?;
            write_next_roles(rest, out)?;
            write_bytes(b" }", out)
        }
    }
}

#[tactic(auto, using(text_pieces::proofs::KeptFronts::front_of_front))]
fn write_next_roles(rest: &[Role], out: &mut Vec<u8>) -> Result<(), Memory>
    ensures ok { OnOk result (out.new.items ≡ out.old.items ++ flat_map next_role_text rest.now) }
    ensures memory { OnErr result (KeepsFront out.old.items out.new.items) }
{
    for next in rest {
        write_next_role(next, out)?;
    }
    Ok(())
}

fn write_next_role(next: &Role, out: &mut Vec<u8>) -> Result<(), Memory>
    ensures ok { OnOk result (out.new.items ≡ out.old.items ++ next_role_text next.now) }
    ensures memory { OnErr result (KeepsFront out.old.items out.new.items) }
{
    write_bytes(b" , ", out)?;
    write_bytes(next.0.bytes(), out)
}

fn write_properties(props: &[(Name, Value)], out: &mut Vec<u8>) -> Result<(), Memory>
    ensures ok { OnOk result (out.new.items ≡ out.old.items ++ properties_text props.now) }
    ensures memory { OnErr result (KeepsFront out.old.items out.new.items) }
{
    match props {
        [] => Ok(()),
        [first, rest @ ..] => {
            write_bytes(b" prop { ", out)?;
            write_property(first, out)?;
            write_next_properties(rest, out)?;
            write_bytes(b" }", out)
        }
    }
}

#[tactic(auto, using(text_pieces::proofs::KeptFronts::front_of_front))]
fn write_next_properties(rest: &[(Name, Value)], out: &mut Vec<u8>) -> Result<(), Memory>
    ensures ok { OnOk result (out.new.items ≡ out.old.items
        ++ flat_map next_property_text rest.now) }
    ensures memory { OnErr result (KeepsFront out.old.items out.new.items) }
{
    for next in rest {
        write_next_property(next, out)?;
    }
    Ok(())
}

fn write_next_property(next: &(Name, Value), out: &mut Vec<u8>) -> Result<(), Memory>
    ensures ok { OnOk result (out.new.items ≡ out.old.items ++ next_property_text next.now) }
    ensures memory { OnErr result (KeepsFront out.old.items out.new.items) }
{
    write_bytes(b" , ", out)?;
    write_property(next, out)
}

fn write_property(property: &(Name, Value), out: &mut Vec<u8>) -> Result<(), Memory>
    ensures ok { OnOk result (out.new.items ≡ out.old.items ++ property_text property.now) }
    ensures memory { OnErr result (KeepsFront out.old.items out.new.items) }
{
    write_three(b"N . ", property.0.bytes(), b" = ", out)?;
    write_value(&property.1, out)
}

/// The bracket before a part, where it has one.
fn opening(bracketed: bool) -> &'static [u8]
    ensures { result.now ≡ opening_text bracketed }
{
    if bracketed { b"( " } else { b"" }
}

/// The bracket behind a part, where it has one.
fn closing(bracketed: bool) -> &'static [u8]
    ensures { result.now ≡ closing_text bracketed }
{
    if bracketed { b" )" } else { b"" }
}

/// What stands between two parts, with the brackets beside it.
fn write_between(left: bool, sign: &[u8], right: bool, out: &mut Vec<u8>) -> Result<(), Memory>
    ensures ok { OnOk result (out.new.items ≡ out.old.items ++ between_text left sign.now right) }
    ensures memory { OnErr result (KeepsFront out.old.items out.new.items) }
{
    write_three(closing(left), sign, opening(right), out)
}

/// Three texts in a row.
fn write_three(first: &[u8], second: &[u8], third: &[u8], out: &mut Vec<u8>) -> Result<(), Memory>
    ensures ok { OnOk result (out.new.items ≡ out.old.items
        ++ (first.now ++ second.now ++ third.now)) }
    ensures memory { OnErr result (KeepsFront out.old.items out.new.items) }
{
    write_bytes(first, out)?;
    write_bytes(second, out)?;
    write_bytes(third, out)
}

fn write_expression(expr: &Expr, out: &mut Vec<u8>) -> Result<(), Memory>
    ensures ok { OnOk result (out.new.items ≡ out.old.items
        ++ expression_text (expression expr.now)) }
    ensures memory { OnErr result (KeepsFront out.old.items out.new.items) }
{
    write_expr(expr, out)
}
