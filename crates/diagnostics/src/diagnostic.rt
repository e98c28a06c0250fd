//! What is told of a fault of a text.

ghost use Rattle.std.specs.Prelude.{◌≡◌, ◌≢◌, None, IfOk};

use dioc_terms::Memory;

/// The kind of a fault.
#[derive(Clone, Copy, Debug, PartialEq, Eq)]
pub enum Code {
    /// The text has more bytes than a bundle may have.
    TooLong,
    /// A byte is in no token.
    BadByte,
    /// A token may not stand where it does, or more is wanted at the end.
    Syntax,
    /// A name or a text is too long.
    Long,
    /// A number is too great.
    Number,
    /// Too many brackets are open at once.
    Brackets,
    /// A choreography or an expression is too deep.
    Depth,
    /// There is more of something than a bundle may have.
    TooMany,
    /// A role is none of the choreography.
    UnknownRole,
    /// A role sends to itself.
    SelfMessage,
    /// A sequence isn't linked.
    Unlinked,
    /// The body of a rule is too big.
    BodyTooBig,
    /// The choreography doesn't play an entry of the trace section where it stands.
    Stray,
    /// The trace section says that the run has ended, and the choreography hasn't.
    Unfinished,
}

impl Code {
    /// How the kind is named in JSON.
    pub fn name(self) -> &'static [u8] {
        match self {
            Code::TooLong => b"too-long",
            Code::BadByte => b"bad-byte",
            Code::Syntax => b"syntax",
            Code::Long => b"long",
            Code::Number => b"number",
            Code::Brackets => b"brackets",
            Code::Depth => b"depth",
            Code::TooMany => b"too-many",
            Code::UnknownRole => b"unknown-role",
            Code::SelfMessage => b"self-message",
            Code::Unlinked => b"unlinked",
            Code::BodyTooBig => b"body-too-big",
            Code::Stray => b"stray",
            Code::Unfinished => b"unfinished",
        }
    }
}

/// The bytes of a text from `start` up to `end`. At the end of the text both are its length.
#[derive(Clone, Copy, Debug, PartialEq, Eq)]
pub struct Span {
    pub start: usize,
    pub end: usize,
}

impl Span {
    /// No byte, at a place.
    pub(crate) fn at(byte: usize) -> Span
        ensures start { result.start ≡ byte }
        ensures end { result.end ≡ byte }
    {
        Span {
            start: byte,
            end: byte,
        }
    }
}

/// A fault of a text: where it is, why it is one, and what helps.
#[derive(Drop)]
pub struct Diagnostic {
    /// The kind of the fault.
    pub code: Code,
    /// Where it is.
    pub span: Span,
    /// One line that says what is wrong.
    pub message: Vec<u8>,
    /// One line that says what may be done.
    pub help: Vec<u8>,
}

/// A diagnostic that was made.
pub(crate) fn told(made: Result<Diagnostic, Memory>) -> Result<Option<Diagnostic>, Memory>
    ensures { IfOk result (λ found. found ≢ None) }
{
    match made {
        Ok(diagnostic) => Ok(Some(diagnostic)),
        Err(fault) => Err(fault),
    }
}
