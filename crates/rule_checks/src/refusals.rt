//! Why a bundle may not run.

use dioc_terms::{Index, Memory, Role};

/// The text that a refusal is about: the choreography, or the body of a rule by its number.
#[derive(Clone, Copy, Debug)]
pub enum Where {
    /// The choreography, or the inputs beside it.
    Program,
    /// The body of the rule of that number in the bundle.
    Rule(u32),
}

/// What there is too much of.
#[derive(Clone, Copy, Debug)]
pub enum Which {
    /// Nodes of the choreography: more than 5,000.
    Nodes,
    /// Roles of the cast: more than 32.
    Roles,
    /// Rules in the book at once, at its start or after a change of the script: more than 256.
    Rules,
    /// Changes of the script: more than 1,000.
    Changes,
}

/// Why a bundle may not run. Its texts are those that a person is told.
#[derive(Debug, Drop)]
pub enum Refusal {
    /// There is more of it than a bundle may have.
    TooMany(Which),
    /// The first role of the inputs, or of a rule's body, that isn't in the cast.
    UnknownRole(Where, Role),
    /// The first interaction of a role with itself.
    SelfMessage(Where, Index),
    /// The first sequence that isn't linked: the indices of the first constructs of its two parts,
    /// and the first role of the cast that begins the second part and is missing from an ending of
    /// the first.
    Unlinked(Where, Index, Index, Role),
    /// The body of the rule of that number has more than 200 nodes, or is deeper than 64.
    BodyTooBig(u32),
    /// Memory ran out.
    Memory,
}

impl std::error::Error for Refusal {}

impl From<Memory> for Refusal {
    ghost use Rattle.std.specs.Prelude.{◌≡◌};
    ghost use Rattle.rule_checks.specs.declared.refusals.Refusal.TheVariants as why;

    ghost from_gives = { λ _ refusal. refusal ≡ why.Memory };

    fn from(_: Memory) -> Self {
        Refusal::Memory
    }
}
