//! What a worker makes of an answer as soon as it has it.

ghost use Rattle.std.specs.Prelude.{◌≡◌, ℕ, IfOk};
ghost use Rattle.session_pool.specs.Answers.{PlainAnswer, answer_seen};

use crate::answers::Answer;
use dioc_terms::Memory;
use std::alloc::Global;

/// What a worker makes of the answer of a session, before it claims the next: the answer itself, or
/// a text of it, say, so that no run is kept that nobody asks for any more.
pub trait Made: Send + Drop {
    /// What contracts see of it.
    ghost Seen: { Type 0 };

    ghost seen: { Self → Seen };

    /// What the answer of the session of a number is made to be.
    ghost made_of: { ℕ → PlainAnswer → Seen };

    /// Makes it of the answer of the session of this number; the error is want of memory.
    fn make(alloc: Global, number: u32, answer: Answer) -> Result<Self, Memory>
        ensures { IfOk result (λ made. seen made ≡ made_of number (answer_seen answer)) };
}

impl Made for Answer {
    ghost Seen = { PlainAnswer };

    ghost seen = { answer_seen };

    ghost made_of = { λ _ answer. answer };

    fn make(_alloc: Global, _number: u32, answer: Answer) -> Result<Answer, Memory> {
        Ok(answer)
    }
}
