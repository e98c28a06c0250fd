//! Guards of choices and loops.

ghost use Rattle.std.specs.Prelude.{◌≡◌, ◌≤◌, ◌<◌, ◌^◌, length, None, IfOk};
ghost use Rattle.dioc_syntax.specs.Readers.{GuardAt};

use crate::heads::leader_at;
use crate::places::Reader;
use dioc_terms::{Expr, Memory, Role, give_up};
use expr_syntax::{ExprKind, expr_at};

/// A guard and its leader.
#[derive(Drop)]
pub struct Guard {
    pub expr: Expr,
    pub leader: Role,
    /// The place behind them.
    pub at: usize,
}

/// Lets go of an expression that is no guard.
fn no_guard(_expr: Expr) -> Option<Guard>
    ensures { result ≡ None }
{
    None
}

/// The guard and the leader at a place of the text: an expression and `@ r`. As many brackets as
/// `room` may be open in it at once.
pub fn guard_at(reader: &Reader<'_>, room: usize, at: usize) -> Result<Option<Guard>, Memory>
    requires { length reader.now.text.now < 2 ^ 63 }
    ensures { IfOk result (λ found. GuardAt room reader.now.text.now at found) }
{
    let (expr, next) = match expr_at(reader.alloc, reader.text, ExprKind::Step, room, at)? {
        Some(guard) => guard,
        None => return Ok(None),
    };
    match leader_at(reader.alloc, reader.text, next) {
        Ok(Some(leader)) => Ok(Some(Guard {
            expr,
            leader,
            at: next + 2,
        })),
        Ok(None) => Ok(no_guard(expr)),
        Err(fault) => give_up(expr, fault),
    }
}
