//! Lines and columns.

ghost use Rattle.std.specs.Prelude.{◌≡◌, ◌≤◌, length};
ghost use Rattle.aioc_tokens.specs.Tokens.{line_length};
ghost use Rattle.text_places.specs.Positions.{feeds_in, behind_feed, line_around, position_of};

/// A place of a text, both counted from 1. The column counts bytes.
#[derive(Clone, Copy, Debug, PartialEq, Eq)]
pub struct Position {
    /// The number of the line.
    pub line: usize,
    /// The number of the byte in its line.
    pub column: usize,
}

/// How many line feeds a text has.
fn feeds_in(text: &[u8]) -> usize
    ensures { result ≡ feeds_in text.now }
{
    text.iter().filter(|byte| **byte == b'\n').count()
}

/// How many bytes stand behind the last line feed of a text, or in all of it where there is none.
fn behind_feed(text: &[u8]) -> usize
    ensures value { result ≡ behind_feed text.now }
    ensures within { result ≤ length text.now }
{
    text.iter().rev().take_while(|byte| **byte != b'\n').count()
}

/// The line and the column of a byte of the text, or of its end: one more than the line feeds
/// before it, and one more than the bytes before it since the last of them.
pub fn position_at(text: &[u8], at: usize) -> Position
    requires { at ≤ length text.now }
    ensures { result ≡ position_of text.now at }
{
    let before = &text[..at];
    Position {
        line: feeds_in(before) + 1,
        column: behind_feed(before) + 1,
    }
}

/// How many bytes stand before the next line feed, or before the end.
fn line_length(text: &[u8]) -> usize
    ensures value { result ≡ line_length text.now }
    ensures within { result ≤ length text.now }
{
    text.iter().take_while(|byte| **byte != b'\n').count()
}

/// The line of a text in which this byte, or the end, stands, without its line feed.
pub fn line_at(text: &[u8], at: usize) -> &[u8]
    requires { at ≤ length text.now }
    ensures { result.now ≡ line_around text.now at }
{
    let begins = at - behind_feed(&text[..at]);
    let line = &text[begins..];
    &line[..line_length(line)]
}
