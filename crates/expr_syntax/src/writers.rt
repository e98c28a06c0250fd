//! Expressions as they are written.

ghost use Rattle.std.specs.Prelude.{◌≡◌, ◌++◌, [], codes, OnOk, OnErr, if◌then◌else◌};
ghost use Rattle.dioc_terms.specs.Expressions.{expression};
ghost use Rattle.aioc_tokens.specs.Spelling.{spelling, spelled};
ghost use Rattle.text_pieces.specs.Pieces.{KeepsFront};
ghost use Rattle.expr_syntax.specs.Writing.{is_compound, operator_lexeme, written, written_value};
ghost use Rattle.expr_syntax.specs.Pieces.{opening_text, closing_text, expression_text};

use dioc_terms::{Expr, Memory, Name, Oper, Value};
use text_pieces::{Minus, cut_back, write_bytes};

/// Appends the text of an expression: its tokens with one space between two. A `-` stands before an
/// operand in brackets. An operand of `not` and of an operator between two is in brackets where it
/// has an operator itself. A negative constant is `-` and its digits.
///
/// Where memory runs out, `out` is as it was.
pub fn write_expr(expr: &Expr, out: &mut Vec<u8>) -> Result<(), Memory>
    ensures ok { OnOk result (out.new.items ≡ out.old.items
        ++ spelled (written (expression expr.now) [])) }
    ensures memory { OnErr result (out.new.items ≡ out.old.items) }
{
    let start = out.len();
    let written = write_part(expr, out);
    cut_back(written, start, out)
}

/// Appends the text of a value, as a constant is written in an expression.
///
/// Where memory runs out, `out` is as it was.
pub fn write_value(value: &Value, out: &mut Vec<u8>) -> Result<(), Memory>
    ensures ok { OnOk result (out.new.items ≡ out.old.items
        ++ spelled (written_value value.now [])) }
    ensures memory { OnErr result (out.new.items ≡ out.old.items) }
{
    let start = out.len();
    let written = text_pieces::write_value(value, Minus::Apart, out);
    cut_back(written, start, out)
}

fn write_part(expr: &Expr, out: &mut Vec<u8>) -> Result<(), Memory>
    ensures ok { OnOk result (out.new.items ≡ out.old.items
        ++ expression_text (expression expr.now)) }
    ensures memory { OnErr result (KeepsFront out.old.items out.new.items) }
{
    match expr {
        Expr::Const(value) => text_pieces::write_value(value, Minus::Apart, out),
        Expr::Var(name) => write_bytes(name.bytes(), out),
        Expr::Prop(name) => write_member(b"N . ", name, out),
        Expr::Env(name) => write_member(b"E . ", name, out),
        Expr::Not(inner) => {
            let compound = is_compound(inner);
            write_not(compound, out)?;
            write_part(inner, out)?;
            write_where(compound, b" )", out)
        }
        Expr::Neg(inner) => {
            write_bytes(b"- ( ", out)?;
            write_part(inner, out)?;
            write_bytes(b" )", out)
        }
        Expr::Bin(oper, left, right) => {
            let left_compound = is_compound(left);
            let right_compound = is_compound(right);
            write_where(left_compound, b"( ", out)?;
            write_part(left, out)?;
            write_between(left_compound, *oper, right_compound, out)?;
            write_part(right, out)?;
            write_where(right_compound, b" )", out)
        }
    }
}

/// A name behind the `N` or the `E` of which it is a member.
fn write_member(front: &[u8], name: &Name, out: &mut Vec<u8>) -> Result<(), Memory>
    ensures ok { OnOk result (out.new.items ≡ out.old.items ++ (front.now ++ name.now)) }
    ensures memory { OnErr result (KeepsFront out.old.items out.new.items) }
{
    write_bytes(front, out)?;
    write_bytes(name.bytes(), out)
}

/// Whether an operand stands in brackets.
fn is_compound(expr: &Expr) -> bool
    ensures { result ≡ is_compound (expression expr.now) }
{
    matches!(expr, Expr::Not(_) | Expr::Neg(_) | Expr::Bin(_, _, _))
}

/// A `not`, and the bracket behind it where there is one.
fn write_not(compound: bool, out: &mut Vec<u8>) -> Result<(), Memory>
    ensures ok { OnOk result (out.new.items ≡ out.old.items
        ++ (codes "not " ++ opening_text compound)) }
    ensures memory { OnErr result (KeepsFront out.old.items out.new.items) }
{
    if compound {
        write_bytes(b"not ( ", out)
    } else {
        write_bytes(b"not ", out)
    }
}

/// A bracket where it is wanted.
fn write_where(wanted: bool, bracket: &[u8], out: &mut Vec<u8>) -> Result<(), Memory>
    ensures ok { OnOk result (out.new.items ≡ out.old.items
        ++ (if wanted then bracket.now else [])) }
    ensures memory { OnErr result (KeepsFront out.old.items out.new.items) }
{
    if wanted {
        write_bytes(bracket, out)
    } else {
        Ok(())
    }
}

fn operator_bytes(oper: Oper) -> &'static [u8]
    ensures { result.now ≡ spelling (operator_lexeme oper) }
{
    match oper {
        Oper::Add => b"+",
        Oper::Sub => b"-",
        Oper::Mul => b"*",
        Oper::Div => b"/",
        Oper::Rem => b"%",
        Oper::Join => b"++",
        Oper::Eq => b"==",
        Oper::Ne => b"!=",
        Oper::Lt => b"<",
        Oper::Le => b"<=",
        Oper::Gt => b">",
        Oper::Ge => b">=",
        Oper::And => b"and",
        Oper::Or => b"or",
    }
}

/// What stands between two operands: the operator between two spaces, and the brackets beside
/// it where the left and the right one have them.
fn write_between(left: bool, oper: Oper, right: bool, out: &mut Vec<u8>) -> Result<(), Memory>
    ensures ok { OnOk result (out.new.items ≡ out.old.items ++ (closing_text left
        ++ codes " " ++ spelling (operator_lexeme oper) ++ codes " " ++ opening_text right)) }
    ensures memory { OnErr result (KeepsFront out.old.items out.new.items) }
{
    write_where(left, b" )", out)?;
    write_bytes(b" ", out)?;
    write_bytes(operator_bytes(oper), out)?;
    write_bytes(b" ", out)?;
    write_where(right, b"( ", out)
}
