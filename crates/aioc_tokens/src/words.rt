//! The reserved words and the symbols.

ghost use Rattle.std.specs.Prelude.{◌≡◌, ℕ, List, ◌∷◌, []};
ghost use Rattle.std.specs.List.{find};
ghost use Rattle.std.specs.Str.{bytes_eq};
ghost use Rattle.aioc_tokens.specs.Words.{word_spelling, word_of, punctuator_spelling, punctuator_of, longest_symbol};

/// A reserved word, which is no name in the grammar.
#[derive(Clone, Copy, PartialEq, Eq)]
pub enum Word {
    Aioc,
    Skip,
    If,
    Else,
    While,
    Scope,
    Prop,
    Rule,
    On,
    Do,
    True,
    False,
    Nil,
    And,
    Or,
    Not,
    Input,
    N,
    E,
}

/// A symbol.
#[derive(Clone, Copy, PartialEq, Eq)]
pub enum Punctuator {
    LeftBrace,
    RightBrace,
    LeftParen,
    RightParen,
    LeftBracket,
    RightBracket,
    Semicolon,
    Comma,
    Colon,
    Bar,
    At,
    Equal,
    EqualEqual,
    NotEqual,
    Less,
    LessEqual,
    Greater,
    GreaterEqual,
    Plus,
    PlusPlus,
    Minus,
    Arrow,
    Star,
    Slash,
    Percent,
    Dot,
    Hash,
    Bang,
}

/// What the grammar sees of a token without its bytes.
#[derive(Clone, Copy, PartialEq, Eq)]
pub enum Sort {
    /// No token is left.
    End,
    /// A name that isn't reserved.
    Name,
    /// A name of more than 64 bytes, or a text whose value has more than 1,024.
    Long,
    Number,
    Text,
    Reserved(Word),
    Symbol(Punctuator),
}

/// How many bytes the longest reserved word has.
const LONGEST_WORD: usize = 5;

/// The first of the words that these bytes spell.
fn find_spelled(words: &[Word], bytes: &[u8]) -> Option<Word>
    ensures { result ≡ find (λ word. bytes_eq bytes.now (word_spelling word)) words.now }
{
    for word in words {
        if word.spelling() == bytes {
            return Some(*word);
        }
    }
    None
}

/// The reserved words with these first two bytes.
#[tactic(auto, unfolding(crate::specs::Words::word_of))]
fn words_with(first: u8, second: u8) -> &'static [Word]
    ensures { (others : List ℕ) → word_of (first ∷ second ∷ others)
        ≡ find (λ word. bytes_eq (first ∷ second ∷ others) (word_spelling word)) result.now }
{
    match (first, second) {
        (b'a', b'i') => &[Word::Aioc],
        (b'a', b'n') => &[Word::And],
        (b's', b'k') => &[Word::Skip],
        (b's', b'c') => &[Word::Scope],
        (b'i', b'f') => &[Word::If],
        (b'i', b'n') => &[Word::Input],
        (b'e', b'l') => &[Word::Else],
        (b'w', b'h') => &[Word::While],
        (b'p', b'r') => &[Word::Prop],
        (b'r', b'u') => &[Word::Rule],
        (b'o', b'n') => &[Word::On],
        (b'o', b'r') => &[Word::Or],
        (b'd', b'o') => &[Word::Do],
        (b't', b'r') => &[Word::True],
        (b'f', b'a') => &[Word::False],
        (b'n', b'i') => &[Word::Nil],
        (b'n', b'o') => &[Word::Not],
        _ => &[],
    }
}

/// The reserved word of this one byte.
#[tactic(auto, unfolding(crate::specs::Words::word_of))]
pub(crate) fn lone_word(byte: u8) -> Option<Word>
    ensures { result ≡ word_of (byte ∷ []) }
{
    match byte {
        b'N' => Some(Word::N),
        b'E' => Some(Word::E),
        _ => None,
    }
}

/// The reserved word that these bytes spell.
#[tactic(auto, unfolding(crate::specs::Words::word_of))]
pub fn find_word(bytes: &[u8]) -> Option<Word>
    ensures { result ≡ word_of bytes.now }
{
    // No word is longer than five bytes.
    match bytes {
        [byte] => lone_word(*byte),
        [first, second, ..] if bytes.len() <= LONGEST_WORD => {
            find_spelled(words_with(*first, *second), bytes)
        }
        _ => None,
    }
}

#[tactic(auto, unfolding(crate::specs::Words::punctuator_of))]
pub(crate) fn lone_punctuator(byte: u8) -> Option<Punctuator>
    ensures { result ≡ punctuator_of (byte ∷ []) }
{
    match byte {
        b'{' => Some(Punctuator::LeftBrace),
        b'}' => Some(Punctuator::RightBrace),
        b'(' => Some(Punctuator::LeftParen),
        b')' => Some(Punctuator::RightParen),
        b'[' => Some(Punctuator::LeftBracket),
        b']' => Some(Punctuator::RightBracket),
        b';' => Some(Punctuator::Semicolon),
        b',' => Some(Punctuator::Comma),
        b':' => Some(Punctuator::Colon),
        b'|' => Some(Punctuator::Bar),
        b'@' => Some(Punctuator::At),
        b'=' => Some(Punctuator::Equal),
        b'<' => Some(Punctuator::Less),
        b'>' => Some(Punctuator::Greater),
        b'+' => Some(Punctuator::Plus),
        b'-' => Some(Punctuator::Minus),
        b'*' => Some(Punctuator::Star),
        b'/' => Some(Punctuator::Slash),
        b'%' => Some(Punctuator::Percent),
        b'.' => Some(Punctuator::Dot),
        b'#' => Some(Punctuator::Hash),
        b'!' => Some(Punctuator::Bang),
        _ => None,
    }
}

#[tactic(auto, unfolding(crate::specs::Words::punctuator_of))]
pub(crate) fn pair_punctuator(first: u8, second: u8) -> Option<Punctuator>
    ensures { result ≡ punctuator_of (first ∷ second ∷ []) }
{
    match (first, second) {
        (b'=', b'=') => Some(Punctuator::EqualEqual),
        (b'!', b'=') => Some(Punctuator::NotEqual),
        (b'<', b'=') => Some(Punctuator::LessEqual),
        (b'>', b'=') => Some(Punctuator::GreaterEqual),
        (b'+', b'+') => Some(Punctuator::PlusPlus),
        (b'-', b'>') => Some(Punctuator::Arrow),
        _ => None,
    }
}

/// The longest symbol that two bytes begin with, and how many of them it has.
#[tactic(auto, unfolding(crate::specs::Words::punctuator_of))]
pub(crate) fn longest_symbol(first: u8, second: u8) -> Option<(Punctuator, usize)>
    ensures { result ≡ longest_symbol first second }
{
    match first {
        b'=' if second == b'=' => Some((Punctuator::EqualEqual, 2)),
        b'!' if second == b'=' => Some((Punctuator::NotEqual, 2)),
        b'<' if second == b'=' => Some((Punctuator::LessEqual, 2)),
        b'>' if second == b'=' => Some((Punctuator::GreaterEqual, 2)),
        b'+' if second == b'+' => Some((Punctuator::PlusPlus, 2)),
        b'-' if second == b'>' => Some((Punctuator::Arrow, 2)),
        b'=' => Some((Punctuator::Equal, 1)),
        b'!' => Some((Punctuator::Bang, 1)),
        b'<' => Some((Punctuator::Less, 1)),
        b'>' => Some((Punctuator::Greater, 1)),
        b'+' => Some((Punctuator::Plus, 1)),
        b'-' => Some((Punctuator::Minus, 1)),
        b'{' => Some((Punctuator::LeftBrace, 1)),
        b'}' => Some((Punctuator::RightBrace, 1)),
        b'(' => Some((Punctuator::LeftParen, 1)),
        b')' => Some((Punctuator::RightParen, 1)),
        b'[' => Some((Punctuator::LeftBracket, 1)),
        b']' => Some((Punctuator::RightBracket, 1)),
        b';' => Some((Punctuator::Semicolon, 1)),
        b',' => Some((Punctuator::Comma, 1)),
        b':' => Some((Punctuator::Colon, 1)),
        b'|' => Some((Punctuator::Bar, 1)),
        b'@' => Some((Punctuator::At, 1)),
        b'*' => Some((Punctuator::Star, 1)),
        b'/' => Some((Punctuator::Slash, 1)),
        b'%' => Some((Punctuator::Percent, 1)),
        b'.' => Some((Punctuator::Dot, 1)),
        b'#' => Some((Punctuator::Hash, 1)),
        _ => None,
    }
}

/// The symbol that these bytes spell.
#[tactic(auto, unfolding(crate::specs::Words::punctuator_of))]
pub fn find_punctuator(bytes: &[u8]) -> Option<Punctuator>
    ensures { result ≡ punctuator_of bytes.now }
{
    match bytes {
        [byte] => lone_punctuator(*byte),
        [first, second] => pair_punctuator(*first, *second),
        _ => None,
    }
}

impl Word {
    /// How the word is spelled.
    pub fn spelling(self) -> &'static [u8]
        ensures { result.now ≡ word_spelling self }
    {
        match self {
            Word::Aioc => b"aioc",
            Word::Skip => b"skip",
            Word::If => b"if",
            Word::Else => b"else",
            Word::While => b"while",
            Word::Scope => b"scope",
            Word::Prop => b"prop",
            Word::Rule => b"rule",
            Word::On => b"on",
            Word::Do => b"do",
            Word::True => b"true",
            Word::False => b"false",
            Word::Nil => b"nil",
            Word::And => b"and",
            Word::Or => b"or",
            Word::Not => b"not",
            Word::Input => b"input",
            Word::N => b"N",
            Word::E => b"E",
        }
    }
}

impl Punctuator {
    /// How the symbol is spelled.
    pub fn spelling(self) -> &'static [u8]
        ensures { result.now ≡ punctuator_spelling self }
    {
        match self {
            Punctuator::LeftBrace => b"{",
            Punctuator::RightBrace => b"}",
            Punctuator::LeftParen => b"(",
            Punctuator::RightParen => b")",
            Punctuator::LeftBracket => b"[",
            Punctuator::RightBracket => b"]",
            Punctuator::Semicolon => b";",
            Punctuator::Comma => b",",
            Punctuator::Colon => b":",
            Punctuator::Bar => b"|",
            Punctuator::At => b"@",
            Punctuator::Equal => b"=",
            Punctuator::EqualEqual => b"==",
            Punctuator::NotEqual => b"!=",
            Punctuator::Less => b"<",
            Punctuator::LessEqual => b"<=",
            Punctuator::Greater => b">",
            Punctuator::GreaterEqual => b">=",
            Punctuator::Plus => b"+",
            Punctuator::PlusPlus => b"++",
            Punctuator::Minus => b"-",
            Punctuator::Arrow => b"->",
            Punctuator::Star => b"*",
            Punctuator::Slash => b"/",
            Punctuator::Percent => b"%",
            Punctuator::Dot => b".",
            Punctuator::Hash => b"#",
            Punctuator::Bang => b"!",
        }
    }
}
