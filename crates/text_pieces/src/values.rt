//! Values, as expressions and traces write them.

ghost use Rattle.std.specs.Prelude.{◌≡◌, ◌++◌, OnOk, OnErr};
ghost use Rattle.text_pieces.specs.Pieces.{KeepsFront, minus_text, integer_text, value_text};

use crate::pieces::{write_bytes, write_number, write_quoted, write_truth};
use dioc_terms::{Memory, Value};

/// How the `-` of a negative number stands before its digits.
#[derive(Clone, Copy)]
pub enum Minus {
    /// Directly before them, as in a trace.
    Close,
    /// With a space behind it, as a token of its own, as in an expression.
    Apart,
}

/// Appends a value: `nil`, `true`, `false`, the digits of a number behind its `-`, or a text in
/// quotes.
pub fn write_value(value: &Value, minus: Minus, out: &mut Vec<u8>) -> Result<(), Memory>
    ensures ok { OnOk result (out.new.items ≡ out.old.items ++ value_text minus value.now) }
    ensures memory { OnErr result (KeepsFront out.old.items out.new.items) }
{
    match value {
        Value::Nil => write_bytes(b"nil", out),
        Value::Bool(truth) => write_truth(*truth, out),
        Value::Int(number) => write_integer(*number, minus, out),
        Value::Text(text) => write_quoted(text.bytes(), out),
    }
}

fn write_integer(number: i64, minus: Minus, out: &mut Vec<u8>) -> Result<(), Memory>
    ensures ok { OnOk result (out.new.items ≡ out.old.items ++ integer_text minus number) }
    ensures memory { OnErr result (KeepsFront out.old.items out.new.items) }
{
    if number < 0 {
        write_bytes(minus_bytes(minus), out)?;
    }
    write_number(number.unsigned_abs(), out)
}

fn minus_bytes(minus: Minus) -> &'static [u8]
    ensures { result.now ≡ minus_text minus }
{
    match minus {
        Minus::Close => b"-",
        Minus::Apart => b"- ",
    }
}
