//! How far a text was read: what is wanted behind its first tokens.

ghost use Rattle.std.specs.Prelude.{◌≡◌, ◌≤◌, ◌∷◌, [], take, length, reverse, is_some, IfOk};
ghost use Rattle.wanted_tokens.specs.Wanted.{reading_behind, may_end};
ghost use Rattle.wanted_items.specs.Walks.{IsWalk, IsTakenBy};

use aioc_tokens::Lexed;
use dioc_terms::Memory;
use std::alloc::Global;
use wanted_tokens::{Goal, Look, is_over, look_at, take};

/// What is wanted behind the first tokens of a bundle.
#[derive(Drop)]
pub(crate) struct Walk {
    /// The goals, whose last one is wanted first.
    pub goals: Vec<Goal>,
    /// Whether these tokens are those of a text of the second version.
    pub second: bool,
}

/// Whether one of these goals takes the token: the last one, or if it passes it on, the next.
fn is_taken(alloc: Global, goals: &[Goal], second: bool, look: Look) -> Result<bool, Memory>
    ensures { IfOk result (λ taken. taken
        ≡ is_some (reading_behind second (reverse goals.now) look)) }
{
    let mut left = Vec::from_slice(alloc, goals)?;
    let mut behind = second;
    take(&mut left, &mut behind, look)
}

impl Walk {
    ghost use Rattle.std.specs.Prelude.{◌≡◌, reverse, is_some, IfOk};
    ghost use Rattle.wanted_tokens.specs.Wanted.{reading_behind, may_end};
    ghost use Rattle.wanted_items.specs.Walks.{IsTakenBy};

    /// Whether a token that is seen so would be taken, which this goal takes. However many goals
    /// are wanted, only those are looked at that pass the token on.
    pub(crate) fn takes(&self, alloc: Global, look: Look, own: Goal) -> Result<bool, Memory>
        requires { IsTakenBy own look }
        ensures { IfOk result (λ taken. taken
            ≡ is_some (reading_behind self.now.second (reverse self.now.goals.items) look)) }
    {
        let mut left = self.goals.len();
        'goals: while left > 0 {
            left -= 1;
            let goal = self.goals[left];
            if is_taken(alloc, &[goal], self.second, look)? {
                return Ok(true);
            }
            // The goal before it gets what this one passes on.
            if !is_taken(alloc, &[own, goal], self.second, look)? {
                return Ok(false);
            }
        }
        Ok(false)
    }

    /// Whether no more is wanted.
    pub(crate) fn is_over(&self) -> bool
        ensures { result ≡ may_end self.now.second (reverse self.now.goals.items) }
    {
        is_over(&self.goals, self.second)
    }
}

/// What is wanted behind the tokens before a place, `None` where one of them isn't wanted itself.
pub(crate) fn walk_to(alloc: Global, text: &Lexed<'_>, at: usize) -> Result<Option<Walk>, Memory>
    requires { at ≤ length text.now }
    ensures { IfOk result (IsWalk (take at text.now)) }
{
    let mut goals = Vec::new(alloc);
    goals.push(Goal::Bundle)?;
    let mut second = false;
    let mut place = 0;
    'tokens: while place < at {
        if !take(&mut goals, &mut second, look_at(text, place))? {
            return Ok(None);
        }
        place += 1;
    }
    Ok(Some(Walk { goals, second }))
}
