//! A diagnostic as text and as JSON.

ghost use Rattle.std.specs.Prelude.{◌≡◌, ◌≤◌, ◌++◌, length, OnOk};
ghost use Rattle.diagnostics.specs.Rendering.{head_text};

use crate::diagnostic::{Diagnostic, Span};
use crate::wording::{Piece, write_pieces};
use dioc_terms::Memory;
use serde_json::{Map, Value as Json};
use std::alloc::Global;
use std::str;
use text_pieces::write_bytes;
use text_places::{Position, line_at, position_at};

type Members = Map<String, Json>;

/// So many bytes of a line are shown at most, and so many of them before the place.
const MOST_SHOWN: usize = 160;

const MOST_BEFORE: usize = 100;

/// Appends the first line: file, place and message.
fn write_head<'a>(
    file: &'a [u8],
    position: Position,
    message: &'a [u8],
    out: &mut Vec<u8>,
) -> Result<(), Memory>
    ensures { OnOk result (out.new.items ≡ out.old.items ++ head_text file.now position
        message.now) }
{
    write_pieces(
        &[
            Piece::Bytes(file),
            Piece::Bytes(b":"),
            Piece::Number(position.line as u64),
            Piece::Bytes(b":"),
            Piece::Number(position.column as u64),
            Piece::Bytes(b": error: "),
            Piece::Bytes(message),
            Piece::Bytes(b"\n"),
        ],
        out,
    )
}

/// Whether a byte goes on a character of several bytes.
fn goes_on(byte: u8) -> bool {
    byte >= 0x80 && byte < 0xc0
}

/// How many bytes at the front go on a character.
fn rest_of_character(bytes: &[u8]) -> usize
    ensures { result ≤ length bytes.now }
{
    bytes.iter().take_while(|byte| goes_on(**byte)).count()
}

/// Where the part of a line begins that is shown, for a byte of it.
fn shown_from(line: &[u8], at: usize) -> usize {
    if at <= MOST_BEFORE || at > line.len() || line.len() <= MOST_SHOWN {
        return 0;
    }
    let from = at - MOST_BEFORE;
    from + rest_of_character(&line[from..])
}

/// The part of a line that is shown, from a byte of it on.
fn shown_of(line: &[u8], from: usize) -> &[u8] {
    let rest = &line[from.min(line.len())..];
    if rest.len() <= MOST_SHOWN {
        return rest;
    }
    let end = MOST_SHOWN + rest_of_character(&rest[MOST_SHOWN..]);
    &rest[..end]
}

/// Appends a line of carets under the place, so many bytes behind the front of what is shown.
fn write_carets(
    shown: &[u8],
    before: usize,
    count: usize,
    out: &mut Vec<u8>,
) -> Result<(), Memory> {
    let before = before.min(shown.len());
    for byte in &shown[..before] {
        if *byte == b'\t' {
            out.push(b'\t')?;
        } else if !goes_on(*byte) {
            out.push(b' ')?;
        }
    }
    out.push(b'^')?;
    for _ in 1..count.min(shown.len() - before) {
        out.push(b'^')?;
    }
    out.push(b'\n')?;
    Ok(())
}

/// How many bytes a place has.
fn width(span: Span) -> usize {
    span.end.saturating_sub(span.start)
}

/// Appends a diagnostic of a text as it is told: the place and the message, the line with carets
/// under the place, and the help.
pub fn write_text(
    file: &[u8],
    bytes: &[u8],
    diagnostic: &Diagnostic,
    out: &mut Vec<u8>,
) -> Result<(), Memory> {
    let at = diagnostic.span.start.min(bytes.len());
    let position = position_at(bytes, at);
    write_head(file, position, &diagnostic.message, out)?;
    let line = line_at(bytes, at);
    let before = position.column.saturating_sub(1);
    let from = shown_from(line, before);
    let shown = shown_of(line, from);
    write_bytes(shown, out)?;
    write_bytes(b"\n", out)?;
    write_carets(
        shown,
        before.saturating_sub(from),
        width(diagnostic.span),
        out,
    )?;
    write_bytes(b"help: ", out)?;
    write_bytes(&diagnostic.help, out)?;
    write_bytes(b"\n", out)
}

/// Puts a value at a key.
fn put_json(members: &mut Members, alloc: Global, key: &str, json: Json) -> Result<(), Memory> {
    serde_json::put(members, alloc, key, json)?;
    Ok(())
}

fn put_number(
    members: &mut Members,
    alloc: Global,
    key: &str,
    number: usize,
) -> Result<(), Memory> {
    put_json(members, alloc, key, Json::from(number as u64))
}

fn put_text(members: &mut Members, alloc: Global, key: &str, text: &[u8]) -> Result<(), Memory> {
    let text = match str::from_utf8(text) {
        Ok(text) => text,
        Err(_) => "?",
    };
    put_json(members, alloc, key, Json::try_from_str(alloc, text)?)
}

/// Appends a diagnostic of a text as one JSON object on a line of its own, with its file, line,
/// column, the column behind its last byte, code, message and help.
pub fn write_json(
    file: &[u8],
    bytes: &[u8],
    diagnostic: &Diagnostic,
    out: &mut Vec<u8>,
) -> Result<(), Memory> {
    let alloc = *out.allocator();
    let position = position_at(bytes, diagnostic.span.start.min(bytes.len()));
    let end = position.column.saturating_add(width(diagnostic.span));
    let mut members = Map::new(alloc);
    put_text(&mut members, alloc, "file", file)?;
    put_number(&mut members, alloc, "line", position.line)?;
    put_number(&mut members, alloc, "column", position.column)?;
    put_number(&mut members, alloc, "end", end)?;
    put_text(&mut members, alloc, "code", diagnostic.code.name())?;
    put_text(&mut members, alloc, "message", &diagnostic.message)?;
    put_text(&mut members, alloc, "help", &diagnostic.help)?;
    let json = Json::Object(members);
    let text = json.to_vec(alloc)?;
    write_bytes(&text, out)?;
    write_bytes(b"\n", out)
}
