//! What a goal makes of a token.

ghost use Rattle.std.specs.Prelude.{◌≡◌, ◌∷◌, ◌++◌, [], ◌<◌, true, false};
ghost use Rattle.wanted_tokens.specs.Takings.{effect, Takes, Passes, Stops, listed};
ghost use Rattle.wanted_tokens.specs.declared.goals.Goal.{Goal};

use crate::goals::Goal;

/// What a goal makes of a token.
#[derive(Clone, Copy)]
pub enum Taking {
    /// The token is taken, and then these are wanted, in their order, and this one behind them.
    Takes(&'static [Goal], Option<Goal>),
    /// The goal is reached without the token, which is for the next one.
    Passes,
    /// The token isn't wanted.
    Stops,
}

/// No goals.
pub const NOTHING: [Goal; 0] = [];

/// The token is taken, and then these are wanted.
pub fn takes(wanted: &'static [Goal]) -> Taking
    ensures { effect result ≡ Takes wanted.now }
{
    Taking::Takes(wanted, None)
}

/// The token is taken, and then these are wanted, and this goal behind them.
pub fn takes_before(wanted: &'static [Goal], last: Goal) -> Taking
    ensures { effect result ≡ Takes (wanted.now ++ last ∷ []) }
{
    Taking::Takes(wanted, Some(last))
}
