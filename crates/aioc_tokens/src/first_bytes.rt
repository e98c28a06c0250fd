//! What a byte says of the token, space or comment that begins with it.

ghost use Rattle.std.specs.Prelude.{◌≡◌};
ghost use Rattle.aioc_tokens.specs.Tokens.{is_name_byte};
ghost use Rattle.aioc_tokens.specs.FirstBytes.{BeginsWith};

use crate::sort_byte::SortByte;

const LETTER: u8 = 0;

const DIGIT: u8 = 2;

/// The bytes that stand in names have lower codes: an underscore has 1.
const PAST_NAMES: u8 = 3;

const SPACE: u8 = 3;

const QUOTE: u8 = 4;

/// The first of the codes that are sorts' bytes.
const FIRST_LONE: u8 = 24;

/// The code of each byte: one of those above, or the byte of its sort where it is a symbol and
/// begins no longer one. 5 is for the bytes of no other code.
static CODES: [u8; 256] = [
    5, 5, 5, 5, 5, 5, 5, 5, 5, 3, 3, 5, 5, 3, 5, 5, 5, 5, 5, 5, 5, 5, 5, 5, 5, 5, 5, 5, 5, 5, 5, 5,
    3, 5, 4, 50, 5, 48, 5, 5, 26, 27, 46, 5, 31, 5, 49, 5, 2, 2, 2, 2, 2, 2, 2, 2, 2, 2, 32, 30, 5,
    5, 5, 5, 34, 0, 0, 0, 0, 0, 0, 0, 0, 0, 0, 0, 0, 0, 0, 0, 0, 0, 0, 0, 0, 0, 0, 0, 0, 0, 0, 28,
    5, 29, 5, 1, 5, 0, 0, 0, 0, 0, 0, 0, 0, 0, 0, 0, 0, 0, 0, 0, 0, 0, 0, 0, 0, 0, 0, 0, 0, 0, 0,
    24, 33, 25, 5, 5, 5, 5, 5, 5, 5, 5, 5, 5, 5, 5, 5, 5, 5, 5, 5, 5, 5, 5, 5, 5, 5, 5, 5, 5, 5, 5,
    5, 5, 5, 5, 5, 5, 5, 5, 5, 5, 5, 5, 5, 5, 5, 5, 5, 5, 5, 5, 5, 5, 5, 5, 5, 5, 5, 5, 5, 5, 5, 5,
    5, 5, 5, 5, 5, 5, 5, 5, 5, 5, 5, 5, 5, 5, 5, 5, 5, 5, 5, 5, 5, 5, 5, 5, 5, 5, 5, 5, 5, 5, 5, 5,
    5, 5, 5, 5, 5, 5, 5, 5, 5, 5, 5, 5, 5, 5, 5, 5, 5, 5, 5, 5, 5, 5, 5, 5, 5, 5, 5, 5, 5, 5, 5, 5,
    5, 5, 5, 5, 5, 5,
];

/// What begins with a byte.
#[derive(Drop)]
pub(crate) enum First {
    Name,
    Space,
    Number,
    Text,
    /// A symbol that no other byte makes longer, by its sort.
    Lone(SortByte),
    /// A comment, a symbol of one byte or two, or nothing.
    Rest,
}

/// What begins with this byte.
pub(crate) fn first_of(byte: u8) -> First
    ensures { BeginsWith byte result }
{
    let code = CODES[byte as usize];
    if code == SPACE {
        return First::Space;
    }
    if code >= FIRST_LONE {
        return First::Lone(SortByte::from_byte(code));
    }
    match code {
        LETTER => First::Name,
        DIGIT => First::Number,
        QUOTE => First::Text,
        _ => First::Rest,
    }
}

/// Whether a byte can stand in a name.
pub(crate) fn is_name_byte(byte: u8) -> bool
    ensures { result ≡ is_name_byte byte }
{
    CODES[byte as usize] < PAST_NAMES
}
