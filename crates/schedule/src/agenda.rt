//! The agenda: what each role of a net can do now, kept from turn to turn. An act changes only what
//! the role that does it can do, and where it puts a message, what the receiver can do.
//!
//! It keeps all acts that a role's process offers, and beside them which of them can be done. After
//! an act the role that did it offers what it did, but in place of the act what comes in its place:
//! the net is asked only for these acts. What a receiver can do is what it could, and the takes of
//! the message. An act that is done is known by its place in the agenda, so nothing is compared to
//! find it.

ghost use Rattle.std.specs.Prelude.{◌≡◌, ◌<◌, ◌≤◌, ◌^◌, ◌-◌, ◌+◌, ◌||◌, true, false, Bool, Some, IfOk, IfSome, OnErr, OnOk, drop, flat_map, get_or, if◌then◌else◌, length, map, nat_le, slice_get, take, vec_len};
ghost use Rattle.std.specs.List.{list_all, position, remove};
ghost use Rattle.dioc_terms.specs.Equality.{member, role_eq};
ghost use Rattle.dioc_terms.specs.declared.entries.Act.{Act as OneAct};
ghost use Rattle.network_steps.specs.Network.{Network as OneNetwork};
ghost use Rattle.dpoc_process.specs.LocalStates.{LacksAt};
ghost use Rattle.network_steps.specs.Schedule.{is_ready};
ghost use Rattle.net_core.specs.MovesIn.{are_places, chosen};
ghost use Rattle.net_core.specs.Nets.{network_of};
ghost use Rattle.net_core.specs.Places.{offers_at, offers_of, places_of};
ghost use Rattle.schedule.specs.Agendas.{DidAt, DidIn, HasActed, IsBehind, IsFilled, IsListedAs, IsStale, IsStaleAt, StandsAt, WasAgenda, WasListed, agenda_of, move_at, moved, moves_of, parted, puts_to, ready_in, ready_seen, takes, with_place};

use crate::roles::{Listed, ReadyRole};
use dioc_terms::{Act, Key, Memory, Role, give_up};
use dpoc_process::Runs;
use net_core::Net;
use network_steps::Move;
use std::alloc::Global;

/// Brings an agenda up to date after the last move, which it lists there. Before the first move it
/// makes one. After `Memory` the agenda may be half done.
pub(crate) fn keep_up<R: Runs>(
    net: &Net<R>,
    made: Option<Listed>,
    agenda: &mut Vec<ReadyRole>,
) -> Result<(), Memory>
    requires { IsBehind net.now made (map ready_seen agenda.old.items) }
    ensures { OnOk result (map ready_seen agenda.new.items ≡ agenda_of net.now) }
{
    match made {
        None => {
            *agenda = list_ready(net)?;
            Ok(())
        }
        Some(made) => catch_up(net, made, agenda.as_mut_slice()),
    }
}

/// Brings an agenda up to date after the move that it lists there: it asks the net only for the acts
/// that the role offers in place of the one that it did. After `Memory` the agenda may be half done.
pub fn catch_up<R: Runs>(net: &Net<R>, made: Listed, agenda: &mut [ReadyRole]) -> Result<(), Memory>
    requires { IsStaleAt net.now made (map ready_seen agenda.old) }
    ensures { OnOk result (map ready_seen agenda.new ≡ agenda_of net.now) }
{
    match made {
        Listed::Change => Ok(()),
        Listed::Act(doer, place) => refresh(net, doer, place, agenda),
    }
}

/// The agenda of a net after a move, from the one before it: it asks the net only for the acts that
/// the role offers in place of the one that it did. After `Memory` the old agenda is dropped.
pub fn keep_up_with<R: Runs>(
    net: &Net<R>,
    made: &Move,
    agenda: Vec<ReadyRole>,
) -> Result<Vec<ReadyRole>, Memory>
    requires { IsStale net.now (Some made.now) (map ready_seen agenda.items) }
    ensures { IfOk result (λ agenda. map ready_seen agenda.items ≡ agenda_of net.now) }
{
    match made {
        Move::Change => Ok(agenda),
        Move::Act(role, act) => refreshed(net, role, act, agenda),
    }
}

/// The agenda after an act of a role, or all of it anew where it doesn't list the act.
fn refreshed<R: Runs>(
    net: &Net<R>,
    role: &Role,
    act: &Act,
    agenda: Vec<ReadyRole>,
) -> Result<Vec<ReadyRole>, Memory>
    requires { WasAgenda net.now.bundle.cast (network_of net.now) role.now act.now
        (map ready_seen agenda.items) }
    ensures { IfOk result (λ agenda. map ready_seen agenda.items ≡ agenda_of net.now) }
{
    let Some((doer, place)) = find_act(agenda.as_slice(), role, act) else {
        drop(agenda);
        return list_ready(net);
    };
    let mut new = agenda;
    match refresh(net, doer, place, new.as_mut_slice()) {
        Ok(()) => Ok(new),
        Err(fault) => give_up(new, fault),
    }
}

/// Where an agenda lists an act of a role: the place of the role, and the place of the act among
/// those that the role can do.
fn find_act(agenda: &[ReadyRole], role: &Role, act: &Act) -> Option<(usize, usize)>
    ensures { IfSome result (λ at. move_at (map ready_seen agenda.now) (Listed.Act at.0 at.1)
        ≡ Some (Move.Act role.now act.now)) }
{
    let doer = find_role(agenda, role)?;
    let ready = &agenda[doer];
    let place = find_place(ready.acts.as_slice(), ready.ready.as_slice(), act)?;
    Some((doer, place))
}

/// Where an agenda has a role.
fn find_role(agenda: &[ReadyRole], role: &Role) -> Option<usize>
    ensures { result ≡ position (λ ready. role_eq ready.role role.now) agenda.now }
{
    agenda.iter().position(|ready| ready.role == *role)
}

/// Which of the places is that of the act.
fn find_place(acts: &[Act], places: &[usize], act: &Act) -> Option<usize>
    requires { are_places places.now acts.now ≡ true }
    ensures { IfSome result (λ place. slice_get (chosen places.now acts.now) place ≡ Some act.now) }
{
    for place in 0..places.len() {
        if acts[places[place]] == *act {
            return Some(place);
        }
    }
    None
}

/// The agenda of a net: the acts that each role can do now, in the cast's order.
pub fn list_ready<R: Runs>(net: &Net<R>) -> Result<Vec<ReadyRole>, Memory>
    ensures { IfOk result (λ agenda. map ready_seen agenda.items ≡ agenda_of net.now) }
{
    let alloc = net.allocator();
    let cast = net.cast();
    let mut agenda = Vec::new(alloc);
    for role in cast {
        agenda.push(list_role(net, role)?)?;
    }
    Ok(agenda)
}

/// A role of the cast with the acts that it can do now.
fn list_role<R: Runs>(net: &Net<R>, role: &Role) -> Result<ReadyRole, Memory>
    requires { member role.now net.now.bundle.cast ≡ true }
    ensures { IfOk result (λ ready. ready_seen ready ≡ ready_in (network_of net.now) role.now) }
{
    let alloc = net.allocator();
    let mut acts = Vec::new(alloc);
    let mut ready = Vec::new(alloc);
    net.refresh_ready(role, &mut acts, &mut ready)?;
    let role = role.copy(alloc)?;
    Ok(ReadyRole { role, acts, ready })
}

/// Brings an agenda up to date after the act that it lists there.
fn refresh<R: Runs>(
    net: &Net<R>,
    doer: usize,
    place: usize,
    agenda: &mut [ReadyRole],
) -> Result<(), Memory>
    requires { DidIn net.now.bundle.cast (network_of net.now) doer place
        (map ready_seen agenda.old) }
    ensures { OnOk result (map ready_seen agenda.new ≡ agenda_of net.now) }
{
    let done = act_on(net, doer, place, &mut agenda[doer])?;
    let received = receive(net, &done, doer, agenda);
    drop(done);
    received
}

/// Brings up to date what the others can do after the act of a role: of a put its receiver can do
/// the takes of the message.
fn receive<R: Runs>(
    net: &Net<R>,
    act: &Act,
    doer: usize,
    agenda: &mut [ReadyRole],
) -> Result<(), Memory>
    requires { HasActed net.now.bundle.cast (network_of net.now) doer act.now
        (map ready_seen agenda.old) }
    ensures { OnOk result (map ready_seen agenda.new ≡ agenda_of net.now) }
{
    let Act::Put(key) = act else {
        return Ok(());
    };
    let Some(to) = find_role(agenda, &key.to) else {
        return Ok(());
    };
    if to == doer {
        return Ok(());
    }
    come(key, &mut agenda[to])
}

/// Puts the takes of a message among what its receiver can do.
fn come(key: &Key, ready: &mut ReadyRole) -> Result<(), Memory>
    ensures { OnOk result ((N : OneNetwork) → WasListed N (Act.Put key.now) (ready_seen ready.old)
        → ready_seen ready.new ≡ ready_in N ready.old.role) }
{
    add_takes(ready.acts.as_slice(), key, &mut ready.ready)
}

/// Adds the places of the takes of a message to those of other acts.
fn add_takes(acts: &[Act], key: &Key, ready: &mut Vec<usize>) -> Result<(), Memory>
    requires { are_places ready.old.items acts.now ≡ true }
    ensures places { OnOk result ((p : OneAct → Bool) → ready.old.items ≡ places_of p acts.now
        → ready.new.items ≡ places_of (λ a. takes key.now a || p a) acts.now) }
    ensures inside { are_places ready.new.items acts.now ≡ true }
{
    for at in 0..acts.len() {
        if takes(key, &acts[at]) {
            add_place(ready, at)?;
        }
    }
    Ok(())
}

/// Whether the act takes the message of that key.
fn takes(key: &Key, act: &Act) -> bool
    ensures { result ≡ takes key.now act.now }
{
    match act {
        Act::Take(other) => other.index == key.index && *other == *key,
        _ => false,
    }
}

/// Adds a place before the first that isn't below it, unless it is that one.
fn add_place(ready: &mut Vec<usize>, at: usize) -> Result<(), Memory>
    ensures added { OnOk result (ready.new.items ≡ with_place at ready.old.items) }
    ensures err { OnErr result (ready.new.items ≡ ready.old.items) }
{
    let Some(place) = place_for(ready.as_slice(), at) else {
        ready.push(at)?;
        return Ok(());
    };
    if ready[place] == at {
        return Ok(());
    }
    ready.insert(place, at)?;
    Ok(())
}

/// Where the first of the places is that isn't below this one.
fn place_for(places: &[usize], at: usize) -> Option<usize>
    ensures { result ≡ position (nat_le at) places.now }
{
    places.iter().position(|place| at <= *place)
}

/// Where an act was taken out of those that a role offers.
#[derive(Clone, Copy)]
struct Vacancy {
    /// The place of the role in the cast.
    doer: usize,
    /// Which of the places of what the role can do is that of the act.
    place: usize,
    /// The place of the act among all that the role offers.
    at: usize,
}

/// Brings up to date what a role of the cast can do after its own act, which stands at that one of
/// its places, and takes the act out.
fn act_on<R: Runs>(
    net: &Net<R>,
    doer: usize,
    place: usize,
    ready: &mut ReadyRole,
) -> Result<Act, Memory>
    requires here { slice_get net.now.bundle.cast doer ≡ Some ready.old.role }
    requires own { DidAt (network_of net.now) place (ready_seen ready.old) }
    ensures act { IfOk result (λ act. slice_get (ready_seen ready.old).1 place ≡ Some act) }
    ensures listed { OnOk result
        (ready_seen ready.new ≡ ready_in (network_of net.now) ready.old.role) }
{
    fill_in(
        net,
        &ready.role,
        doer,
        place,
        &mut ready.acts,
        &mut ready.ready,
    )
}

/// Puts the acts that a role offers after its act in place of that act, which it takes out. After
/// `Memory` the role can do none.
fn fill_in<R: Runs>(
    net: &Net<R>,
    role: &Role,
    doer: usize,
    place: usize,
    acts: &mut Vec<Act>,
    ready: &mut Vec<usize>,
) -> Result<Act, Memory>
    requires here { slice_get net.now.bundle.cast doer ≡ Some role.now }
    requires inside { are_places ready.old.items acts.old.items ≡ true }
    requires own { DidAt (network_of net.now) place
        (role.now, chosen ready.old.items acts.old.items, acts.old.items, ready.old.items) }
    ensures act { IfOk result
        (λ act. slice_get (chosen ready.old.items acts.old.items) place ≡ Some act) }
    ensures filled { OnOk result (IsFilled (network_of net.now)
        (offers_of (network_of net.now) role.now) acts.new.items ready.new.items) }
    ensures inside { are_places ready.new.items acts.new.items ≡ true }
{
    let at = ready[place];
    let act = acts.remove(at);
    match fill_others(net, role, &act, Vacancy { doer, place, at }, acts, ready) {
        Ok(()) => Ok(act),
        Err(fault) => {
            ready.clear();
            give_up(act, fault)
        }
    }
}

/// Fills in the acts that a role offers in place of one that was taken out. Where that puts a
/// message to the role itself, all are listed anew.
fn fill_others<R: Runs>(
    net: &Net<R>,
    role: &Role,
    act: &Act,
    vacancy: Vacancy,
    acts: &mut Vec<Act>,
    ready: &mut Vec<usize>,
) -> Result<(), Memory>
    requires here { slice_get net.now.bundle.cast vacancy.doer ≡ Some role.now }
    requires inside { vacancy.at ≤ length acts.old.items }
    requires lacks { LacksAt vacancy.at acts.old.items (offers_of (network_of net.now) role.now) }
    requires stands { puts_to act.now role.now ≡ false
        → StandsAt (is_ready (network_of net.now)) vacancy.place vacancy.at acts.old.items
        ready.old.items }
    ensures { OnOk result (IsFilled (network_of net.now) (offers_of (network_of net.now) role.now)
        acts.new.items ready.new.items) }
{
    if puts_to(act, role) {
        return net.refresh_ready(role, acts, ready);
    }
    fill_place(net, vacancy, acts, ready)
}

/// Whether the act puts a message to the role.
fn puts_to(act: &Act, role: &Role) -> bool
    ensures { result ≡ puts_to act.now role.now }
{
    match act {
        Act::Put(key) => *role == key.to,
        _ => false,
    }
}

/// Fills in the acts that a role offers in place of one that was taken out, and asks which of them
/// it can do.
fn fill_place<R: Runs>(
    net: &Net<R>,
    vacancy: Vacancy,
    acts: &mut Vec<Act>,
    ready: &mut Vec<usize>,
) -> Result<(), Memory>
    requires there { vacancy.doer < length net.now.bundle.cast }
    requires inside { vacancy.at ≤ length acts.old.items }
    requires lacks { LacksAt vacancy.at acts.old.items (offers_at net.now vacancy.doer) }
    requires stands { StandsAt (is_ready (network_of net.now)) vacancy.place vacancy.at
        acts.old.items ready.old.items }
    ensures { OnOk result (IsFilled (network_of net.now) (offers_at net.now vacancy.doer)
        acts.new.items ready.new.items) }
{
    let Vacancy { doer, place, at } = vacancy;
    let before = acts.len();
    net.fill_acts_at(doer, acts, at)?;
    let count = acts.len() - before;
    if count == 1 {
        ask_one(net, &acts[at], place, ready);
        return Ok(());
    }
    ready.remove(place);
    move_behind(ready.as_mut_slice(), at, count);
    ask(net, acts.as_slice(), at, at + count, ready)
}

/// Takes a place out unless the act that stands there now can be done.
fn ask_one<R: Runs>(net: &Net<R>, act: &Act, place: usize, ready: &mut Vec<usize>)
    requires { place < length ready.old.items }
    ensures { ready.new.items ≡ (if is_ready (network_of net.now) act.now then ready.old.items
        else remove ready.old.items place) }
{
    if !net.is_ready(act) {
        ready.remove(place);
    }
}

/// Moves the places behind one to where they are once so many acts stand there in place of one.
fn move_behind(places: &mut [usize], at: usize, count: usize)
    requires small { list_all (λ place. nat_le (place + count) 18446744073709551616) places.old
        ≡ true }
    ensures { places.new ≡ map (moved at count) places.old }
{
    for place in places.iter_mut() {
        *place = moved(*place, at, count);
    }
}

/// Where a place is once so many acts stand at another in place of one.
fn moved(place: usize, at: usize, count: usize) -> usize
    requires { place + count ≤ 18446744073709551616 }
    ensures { result ≡ moved at count place }
{
    if at < place {
        (place - 1) + count
    } else {
        place
    }
}

/// Puts the places of the acts from one place to another that can be done among those of the
/// others.
fn ask<R: Runs>(
    net: &Net<R>,
    acts: &[Act],
    from: usize,
    end: usize,
    ready: &mut Vec<usize>,
) -> Result<(), Memory>
    requires order { from ≤ end }
    requires within { end ≤ length acts.now }
    requires parted { ready.old.items ≡ parted (is_ready (network_of net.now)) end
        (take from acts.now) (drop end acts.now) }
    ensures { OnOk result (ready.new.items ≡ places_of (is_ready (network_of net.now)) acts.now) }
{
    for at in from..end {
        if net.is_ready(&acts[at]) {
            add_place(ready, at)?;
        }
    }
    Ok(())
}

/// How many acts can be done by an agenda. In 128 bits there is room for so many.
#[tactic(auto, using(crate::proofs::AgendaLemmas::count_more))]
pub(crate) fn count_acts(agenda: &[ReadyRole]) -> u128
    ensures count { result ≡ length (flat_map moves_of (map ready_seen agenda.now)) }
    ensures small { result < 2 ^ 128 - 1 }
{
    let mut count = 0;
    for ready in agenda {
        count += ready.ready.len() as u128;
    }
    count
}

/// Where an agenda lists the act of that number, of all in it.
pub(crate) fn find_number(agenda: &[ReadyRole], number: u128) -> Listed
    requires { number < length (flat_map moves_of (map ready_seen agenda.now)) }
    ensures { IsListedAs (map ready_seen agenda.now) (flat_map moves_of (map ready_seen agenda.now))
        number result }
{
    let mut left = number;
    for doer in 0..agenda.len() {
        let count = agenda[doer].ready.len() as u128;
        if left < count {
            return Listed::Act(doer, left as usize);
        }
        left -= count;
    }
    unreachable!()
}
