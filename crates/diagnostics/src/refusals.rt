//! Bundles that may not run.

ghost use Rattle.dioc_terms.specs.Bundles.{IsFormed};
ghost use Rattle.dioc_terms.specs.Plain.{plain};
ghost use Rattle.text_places.specs.Laws.{HasTokens};

use crate::crowds::crowded;
use crate::diagnostic::{Code, Diagnostic, Span};
use crate::mending::write_mended;
use crate::places::{construct_at, name_at, part_at, span_at};
use crate::wording::{Piece, line_of, made, stated, write_pieces, write_quoted_word, write_roles};
use aioc_tokens::{Lexed, Token, sorts};
use dioc_terms::{Bundle, Index, Memory, Role};
use index_marks::{depth, nodes};
use limits::{MOST_BODY_DEPTH, MOST_BODY_NODES, MOST_CHANGES, MOST_NODES, MOST_ROLES, MOST_RULES};
use rule_checks::{Refusal, Where, Which};
use std::alloc::Global;
use text_pieces::write_bytes;
use text_places::{Mark, find_mark, position_at, tokens_of};

/// A text with its tokens, and the bundle that it spells.
#[derive(Drop)]
struct Spelled<'a> {
    bytes: &'a [u8],
    tokens: &'a [Token],
    text: &'a Lexed<'a>,
    bundle: &'a Bundle,
}

/// What is told of a bundle that is refused, by its text.
pub fn of_refusal(
    alloc: Global,
    bytes: &[u8],
    bundle: &Bundle,
    refusal: &Refusal,
) -> Result<Diagnostic, Memory>
    requires formed { IsFormed (plain bundle.now) }
    requires tokens { HasTokens bytes.now }
{
    let found = tokens_of(alloc, bytes)?;
    let known = sorts(alloc, bytes, &found)?;
    let text = Lexed::with_sorts(bytes, &found, &known);
    let spelled = Spelled {
        bytes,
        tokens: &found,
        text: &text,
        bundle,
    };
    told(alloc, &spelled, refusal)
}

fn told(alloc: Global, spelled: &Spelled<'_>, refusal: &Refusal) -> Result<Diagnostic, Memory>
    requires { IsFormed (plain spelled.now.bundle.now) }
{
    match refusal {
        Refusal::TooMany(which) => too_many(alloc, spelled, *which),
        Refusal::UnknownRole(part, role) => unknown_role(alloc, spelled, *part, role),
        Refusal::SelfMessage(part, index) => self_message(alloc, spelled, *part, *index),
        Refusal::Unlinked(part, first, second, role) => {
            unlinked(alloc, spelled, *part, [*first, *second], role)
        }
        Refusal::BodyTooBig(number) => body_too_big(alloc, spelled, *number),
        Refusal::Memory => Err(Memory),
    }
}

impl<'a> Spelled<'a> {
    /// The bytes of the token at a place, or the front of the text where no place is known.
    fn span(&self, at: Option<usize>) -> Span {
        match at {
            Some(at) => span_at(self.bytes, self.tokens, at),
            None => Span::at(0),
        }
    }

    /// The token at which a part of the bundle begins.
    fn part(&self, part: Where) -> Option<usize> {
        match (part_at(self.text, self.bundle.opening, part), part) {
            (Some(at), Where::Rule(_)) => Some(at.saturating_add(1)),
            (found, _) => found,
        }
    }

    /// The first token of a construct.
    fn construct(&self, part: Where, index: Index) -> Option<usize> {
        construct_at(self.text, self.bundle.opening, part, index.place)
    }

    /// The first token that names a role in a part of the bundle.
    fn role(&self, part: Where, role: &Role) -> Option<usize> {
        let from = match part_at(self.text, self.bundle.opening, part) {
            Some(from) => from,
            None => return None,
        };
        match find_mark(self.text, Mark::Role(role.0.bytes()), from, 0) {
            Some(at) => Some(at.saturating_add(1)),
            None => None,
        }
    }

    /// The first token that names the role of the cast behind so many others.
    fn role_past(&self, number: usize) -> Option<usize> {
        match self.bundle.cast.as_slice().get(number) {
            Some(role) => self.role(Where::Program, role),
            None => None,
        }
    }

    /// The name of a rule, or one that says that there is none.
    fn rule_name(&self, number: u32) -> &'a [u8] {
        match self.bundle.rules.as_slice().get(number as usize) {
            Some(rule) => rule.name.bytes(),
            None => b"?",
        }
    }
}

/// A line that says this of a role in a part of the bundle.
fn line_of_role(
    alloc: Global,
    spelled: &Spelled<'_>,
    part: Where,
    role: &[u8],
    says: &[u8],
) -> Result<Vec<u8>, Memory> {
    let mut line = Vec::new(alloc);
    if let Where::Rule(number) = part {
        let rule = spelled.rule_name(number);
        write_pieces(
            &[
                Piece::Bytes(b"in rule '"),
                Piece::Bytes(rule),
                Piece::Bytes(b"': "),
            ],
            &mut line,
        )?;
    }
    write_quoted_word(role, &mut line)?;
    write_bytes(says, &mut line)?;
    Ok(line)
}

/// A diagnostic that says how many there are and how many may be.
fn counted(
    alloc: Global,
    span: Span,
    count: usize,
    what: &str,
    most: usize,
) -> Result<Diagnostic, Memory> {
    let message = format!(in alloc; "there are {count} {what}, and at most {most} may be")?;
    let help = b"docs/LANGUAGE.md has all limits of a bundle";
    stated(alloc, Code::TooMany, span, message, help)
}

/// More of something than may be: the place is that of the first that is one too many, or of all.
fn too_many(alloc: Global, spelled: &Spelled<'_>, which: Which) -> Result<Diagnostic, Memory> {
    let bundle = spelled.bundle;
    let (at, count, what, most) = match which {
        Which::Nodes => {
            let count = nodes(&bundle.choreo);
            let at = spelled.part(Where::Program);
            (at, count, "nodes of the choreography", MOST_NODES)
        }
        Which::Roles => {
            let count = bundle.cast.len();
            let at = spelled.role_past(MOST_ROLES);
            (at, count, "roles of the choreography", MOST_ROLES)
        }
        Which::Rules => {
            let crowd = crowded(alloc, bundle)?;
            let at = match crowd.first {
                Some(number) => spelled.part(Where::Rule(number)),
                None => None,
            };
            (at, crowd.count, "rules in the book at once", MOST_RULES)
        }
        Which::Changes => {
            let count = bundle.script.len();
            let at = find_mark(spelled.text, Mark::Change, 0, MOST_CHANGES);
            (at, count, "changes of the script", MOST_CHANGES)
        }
    };
    counted(alloc, spelled.span(at), count, what, most)
}

fn unknown_role(
    alloc: Global,
    spelled: &Spelled<'_>,
    part: Where,
    role: &Role,
) -> Result<Diagnostic, Memory> {
    let at = match part {
        Where::Program => find_mark(spelled.text, Mark::Input(role.0.bytes()), 0, 0),
        Where::Rule(_) => spelled.role(part, role),
    };
    let says = b" is no role of the choreography";
    let message = line_of_role(alloc, spelled, part, role.0.bytes(), says)?;
    let mut help = line_of(
        alloc,
        &[Piece::Bytes(b"the roles of the choreography are: ")],
    )?;
    write_roles(spelled.bundle.cast.as_slice(), &mut help)?;
    Ok(Diagnostic {
        code: Code::UnknownRole,
        span: spelled.span(at),
        message,
        help,
    })
}

fn self_message(
    alloc: Global,
    spelled: &Spelled<'_>,
    part: Where,
    index: Index,
) -> Result<Diagnostic, Memory> {
    let at = spelled.construct(part, index);
    let role = match at {
        Some(at) => name_at(spelled.text, at.saturating_add(2)),
        None => b"?",
    };
    let message = line_of_role(alloc, spelled, part, role, b" sends to itself")?;
    let help = line_of(
        alloc,
        &[
            Piece::Bytes(b"a role sets a variable of its own by an assignment: x@"),
            Piece::Bytes(role),
            Piece::Bytes(b" = .."),
        ],
    )?;
    Ok(Diagnostic {
        code: Code::SelfMessage,
        span: spelled.span(at),
        message,
        help,
    })
}

fn unlinked(
    alloc: Global,
    spelled: &Spelled<'_>,
    part: Where,
    indices: [Index; 2],
    role: &Role,
) -> Result<Diagnostic, Memory>
    requires { IsFormed (plain spelled.now.bundle.now) }
{
    let start = spelled.span(spelled.construct(part, indices[0])).start;
    let from = position_at(spelled.bytes, start.min(spelled.bytes.len()));
    let says = b" begins this part of a sequence, but has no part in an end of what \
        comes before it, from ";
    let mut message = line_of_role(alloc, spelled, part, role.0.bytes(), says)?;
    write_pieces(
        &[
            Piece::Number(from.line as u64),
            Piece::Bytes(b":"),
            Piece::Number(from.column as u64),
            Piece::Bytes(b" on: so '"),
            Piece::Bytes(role.0.bytes()),
            Piece::Bytes(b"' can't know when to begin"),
        ],
        &mut message,
    )?;
    let mut help = Vec::new(alloc);
    write_mended(alloc, spelled.bundle, part, &mut help)?;
    Ok(Diagnostic {
        code: Code::Unlinked,
        span: spelled.span(spelled.construct(part, indices[1])),
        message,
        help,
    })
}

fn body_too_big(alloc: Global, spelled: &Spelled<'_>, number: u32) -> Result<Diagnostic, Memory> {
    let (count, levels) = match spelled.bundle.rules.as_slice().get(number as usize) {
        Some(rule) => (nodes(&rule.body), depth(&rule.body)),
        None => (0, 0),
    };
    let span = spelled.span(spelled.part(Where::Rule(number)));
    let message = line_of(
        alloc,
        &[
            Piece::Bytes(b"the body of rule '"),
            Piece::Bytes(spelled.rule_name(number)),
            Piece::Bytes(b"' has "),
            Piece::Number(count as u64),
            Piece::Bytes(b" nodes and is "),
            Piece::Number(levels as u64),
            Piece::Bytes(b" deep, and at most "),
            Piece::Number(MOST_BODY_NODES as u64),
            Piece::Bytes(b" nodes and a depth of "),
            Piece::Number(MOST_BODY_DEPTH as u64),
            Piece::Bytes(b" may be"),
        ],
    )?;
    let help = b"each step, 'skip', ';' and '|' is a node: move steps out of the rule";
    made(alloc, Code::BodyTooBig, span, message, help)
}
