//! Rules as they are written.

ghost use Rattle.std.specs.Prelude.{◌≡◌, ◌++◌, [], OnOk, OnErr};
ghost use Rattle.dioc_terms.specs.Expressions.{expression};
ghost use Rattle.dioc_terms.specs.Terms.{term};
ghost use Rattle.dioc_terms.specs.Plain.{plain_rule};
ghost use Rattle.aioc_tokens.specs.Spelling.{spelled};
ghost use Rattle.text_pieces.specs.Pieces.{KeepsFront};
ghost use Rattle.rule_syntax.specs.Writing.{written};
ghost use Rattle.rule_syntax.specs.Pieces.{priority_text, head_text, condition_text, body_text, rule_text};

use dioc_syntax::write_choreo;
use dioc_terms::{Choreo, Expr, Memory, Rule, Value};
use expr_syntax::{write_expr, write_value};
use text_pieces::{cut_back, write_bytes};

/// Appends the text of a rule: its tokens with one space between two. A priority of 0 isn't
/// written, a negative one is `-` and its digits.
///
/// Where memory runs out, `out` is as it was.
pub fn write_rule(rule: &Rule, out: &mut Vec<u8>) -> Result<(), Memory>
    ensures ok { OnOk result (out.new.items ≡ out.old.items ++
        spelled (written (plain_rule rule.now) [])) }
    ensures memory { OnErr result (out.new.items ≡ out.old.items) }
{
    let start = out.len();
    cut_back(write_parts(rule, out), start, out)
}

fn write_parts(rule: &Rule, out: &mut Vec<u8>) -> Result<(), Memory>
    ensures ok { OnOk result (out.new.items ≡ out.old.items ++ rule_text (plain_rule rule.now)) }
    ensures memory { OnErr result (KeepsFront out.old.items out.new.items) }
{
    write_head(rule, out)?;
    write_condition(&rule.cond, out)?;
    write_body(&rule.body, out)
}

/// The name and the priority.
fn write_head(rule: &Rule, out: &mut Vec<u8>) -> Result<(), Memory>
    ensures ok { OnOk result (out.new.items ≡ out.old.items ++ head_text (plain_rule rule.now)) }
    ensures memory { OnErr result (KeepsFront out.old.items out.new.items) }
{
    write_bytes(b"rule ", out)?;
    write_bytes(rule.name.bytes(), out)?;
    write_priority(rule.priority, out)
}

/// The condition in its bracket.
fn write_condition(cond: &Expr, out: &mut Vec<u8>) -> Result<(), Memory>
    ensures ok { OnOk result (out.new.items ≡ out.old.items ++
        condition_text (expression cond.now)) }
    ensures memory { OnErr result (KeepsFront out.old.items out.new.items) }
{
    write_bytes(b" { on { ", out)?;
    write_expr(cond, out)?;
    write_bytes(b" }", out)
}

/// The body in its bracket, up to the end of the rule.
fn write_body(body: &Choreo, out: &mut Vec<u8>) -> Result<(), Memory>
    ensures ok { OnOk result (out.new.items ≡ out.old.items ++ body_text (term body.now)) }
    ensures memory { OnErr result (KeepsFront out.old.items out.new.items) }
{
    write_bytes(b" do { ", out)?;
    write_choreo(body, out)?;
    write_bytes(b" } }", out)
}

fn write_priority(priority: i32, out: &mut Vec<u8>) -> Result<(), Memory>
    ensures ok { OnOk result (out.new.items ≡ out.old.items ++ priority_text priority) }
    ensures memory { OnErr result (KeepsFront out.old.items out.new.items) }
{
    if priority == 0 {
        return Ok(());
    }
    write_bytes(b" priority ", out)?;
    write_value(&Value::Int(i64::from(priority)), out)
}
