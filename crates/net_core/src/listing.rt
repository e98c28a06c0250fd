//! The moves of a net, listed.

ghost use Rattle.std.specs.Prelude.{◌≡◌, ◌++◌, [], ◌∷◌, true, filter, if◌then◌else◌, IfOk, OnOk, length, map};
ghost use Rattle.dioc_terms.specs.Equality.{member};
ghost use Rattle.dpoc_process.specs.LocalStates.{offered};
ghost use Rattle.network_steps.specs.declared.moves.Move.TheVariants as move;
ghost use Rattle.net_core.specs.Deeds.{is_there};
ghost use Rattle.net_core.specs.KeptParts.{due_seen};
ghost use Rattle.net_core.specs.MovesIn.{ReadyAt, are_places, chosen, is_first_due, local_moves, moves_in};
ghost use Rattle.net_core.specs.Places.{ListedAt, places_of};

use crate::bodies::Coming;
use crate::parts::{is_there, place_of};
use dioc_terms::{Act, Memory, Role, Roles, give_up};
use dpoc_process::Runs;
use network_steps::Move;
use role_mailbox::Mail;
use std::alloc::Global;
use std::collections::VecDeque;

/// Whether the first of the changes may stand after so many visible entries.
pub fn is_first_due(script: &VecDeque<Coming>, visible_entries: u64) -> bool
    ensures { result ≡ is_first_due (map due_seen script.now.items) visible_entries }
{
    match script.front() {
        Some(next) => next.after <= visible_entries,
        None => false,
    }
}

/// The change where it is due, and then the moves of the roles.
pub(crate) fn list_moves<R: Runs>(
    alloc: Global,
    cast: &Roles,
    roles: &Vec<R>,
    mail: &Mail,
    due: bool,
) -> Result<Vec<Move>, Memory>
    ensures { IfOk result (λ found. found.items ≡ (if due then move.Change ∷ [] else [])
        ++ moves_in cast.now (map R.local roles.now.items) mail.now) }
{
    let mut moves = change_moves(alloc, due)?;
    match add_moves(alloc, cast.as_slice(), roles.as_slice(), mail, &mut moves) {
        Ok(()) => Ok(moves),
        Err(fault) => Err(fault),
    }
}

/// The change where it is due.
fn change_moves(alloc: Global, due: bool) -> Result<Vec<Move>, Memory>
    ensures { IfOk result (λ found. found.items ≡ (if due then move.Change ∷ [] else [])) }
{
    let mut moves = Vec::new(alloc);
    if due {
        moves.push(Move::Change)?;
    }
    Ok(moves)
}

/// Adds the moves of the roles, role by role.
fn add_moves<R: Runs>(
    alloc: Global,
    cast: &[Role],
    roles: &[R],
    mail: &Mail,
    moves: &mut Vec<Move>,
) -> Result<(), Memory>
    ensures { OnOk result (moves.new.items
        ≡ moves.old.items ++ moves_in cast.now (map R.local roles.now) mail.now) }
{
    match cast {
        [] => Ok(()),
        [role, later @ ..] => match roles {
            [] => Ok(()),
            [state, others @ ..] => {
                add_acts(alloc, role, state, mail, moves)?;
                add_moves(alloc, later, others, mail, moves)
            }
        },
    }
}

/// Adds the moves of one role, in the order of what it offers.
fn add_acts<R: Runs>(
    alloc: Global,
    role: &Role,
    state: &R,
    mail: &Mail,
    moves: &mut Vec<Move>,
) -> Result<(), Memory>
    ensures { OnOk result (moves.new.items
        ≡ moves.old.items ++ local_moves role.now (R.local state.now) mail.now) }
{
    let acts = ready_acts(alloc, state, mail)?;
    for act in acts {
        add_act(alloc, role, act, moves)?;
    }
    Ok(())
}

/// Adds the move of a role by an act.
fn add_act(alloc: Global, role: &Role, act: Act, moves: &mut Vec<Move>) -> Result<(), Memory>
    ensures { OnOk result (moves.new.items ≡ moves.old.items ++ move.Act role.now act ∷ []) }
{
    match role.copy(alloc) {
        Ok(role) => {
            moves.push(Move::Act(role, act))?;
            Ok(())
        }
        Err(fault) => give_up(act, fault),
    }
}

/// The acts that a role of the cast can do now.
pub(crate) fn ready_at<R: Runs>(
    alloc: Global,
    cast: &[Role],
    roles: &[R],
    mail: &Mail,
    role: &Role,
) -> Result<Vec<Act>, Memory>
    requires lengths { length roles.now ≡ length cast.now }
    requires member { member role.now cast.now ≡ true }
    ensures { IfOk result
        (λ acts. ReadyAt cast.now (map R.local roles.now) mail.now role.now acts.items) }
{
    let Some(at) = place_of(cast, role) else {
        unreachable!()
    };
    let state = &roles[at];
    match ready_acts(alloc, state, mail) {
        Ok(acts) => Ok(acts),
        Err(fault) => Err(fault),
    }
}

/// Lists, in lists from before, the acts that a role of the cast offers, and the places among them
/// of those that it can do now.
pub(crate) fn refresh_at<R: Runs>(
    alloc: Global,
    cast: &[Role],
    roles: &[R],
    mail: &Mail,
    role: &Role,
    acts: &mut Vec<Act>,
    ready: &mut Vec<usize>,
) -> Result<(), Memory>
    requires lengths { length roles.now ≡ length cast.now }
    requires member { member role.now cast.now ≡ true }
    ensures ready { OnOk result (ReadyAt cast.now (map R.local roles.now) mail.now role.now
        (chosen ready.new.items acts.new.items)) }
    ensures listed { OnOk result (ListedAt cast.now (map R.local roles.now) mail.now role.now
        acts.new.items ready.new.items) }
    ensures inside { are_places ready.new.items acts.new.items ≡ true }
{
    let Some(at) = place_of(cast, role) else {
        unreachable!()
    };
    let state = &roles[at];
    ready.clear();
    state.refresh_acts(alloc, acts)?;
    add_ready(mail, acts.as_slice(), ready)
}

/// Lists the places of the acts that can be done now, in an empty list.
fn add_ready(mail: &Mail, acts: &[Act], ready: &mut Vec<usize>) -> Result<(), Memory>
    requires { ready.old.items ≡ [] }
    ensures ready { OnOk result
        (chosen ready.new.items acts.now ≡ filter (λ a. is_there a mail.now) acts.now) }
    ensures places { OnOk result
        (ready.new.items ≡ places_of (λ a. is_there a mail.now) acts.now) }
    ensures inside { are_places ready.new.items acts.now ≡ true }
{
    for at in 0..acts.len() {
        if is_there(mail, &acts[at]) {
            ready.push(at)?;
        }
    }
    Ok(())
}

/// The acts that a role offers, without takes whose message isn't there.
fn ready_acts<R: Runs>(alloc: Global, state: &R, mail: &Mail) -> Result<Vec<Act>, Memory>
    ensures { IfOk result (λ acts. acts.items
        ≡ filter (λ a. is_there a mail.now) (offered (R.local state.now))) }
{
    let mut acts = state.acts(alloc)?;
    acts.retain(|act| is_there(mail, act));
    Ok(acts)
}
