//! Two seats of a lock that take turns in two threads, a seat that is left out at the end, and
//! seats that are handed in with the first one last.

ghost use Rattle.std.specs.Prelude.{◌≡◌, ◌≤◌, ◌<◌, ◌^◌, [], ◌∷◌, ◌++◌, All, IfOk, length, true, false};
ghost use Rattle.std.specs.Bool.{OnTrue, OnFalse};
ghost use Rattle.turn_lock.specs.Views.{first_view, number};
ghost use Rattle.turn_lock.specs.Words.{view, IsSeatOf};

use std::alloc::Global;
use std::sync::Wait;
use std::test::Fail;
use std::thread::join;
use turn_lock::{Chronicle, Missing, Seat, Turns};

const TURNS: u64 = 1000;

/// A list of numbers, each of which is the number of its owner.
#[derive(Drop)]
struct Journal {
    entries: Vec<u64>,
}

impl Chronicle for Journal {
    type Item = u64;

    type Base = ();

    type Mark = ();

    ghost items = { λ journal. journal.entries.items };

    ghost base = { λ _. tt };

    ghost owner = { λ _ entry. entry };

    ghost at = { λ _. tt };

    ghost grows = { λ _ _. Unit {0} };

    fn count(&self) -> u64 {
        self.entries.len() as u64
    }

    ghost stays = { λ _. tt };

    ghost goes_on = { λ _ _ _ _ _. tt };
}

impl Journal {
    /// Whether there was room and memory for one entry more.
    fn add(&mut self, entry: u64) -> bool
        ensures added { OnTrue result (self.new.entries.items
            ≡ self.old.entries.items ++ entry ∷ []) }
        ensures room { OnTrue result (length self.new.entries.items ≤ 2 ^ 62) }
        ensures same { OnFalse result (self.new.entries.items ≡ self.old.entries.items) }
    {
        self.entries.len() < 1_000_000 && self.entries.push(entry).is_ok()
    }
}

/// A turn, in which the seat adds its number.
fn take_turn<R: Wait>(
    rt: &R,
    turns: &Turns<Journal>,
    seat: Seat<Journal>,
    own: u64,
) -> Seat<Journal>
    requires of { IsSeatOf turns.now seat }
    requires number { number (view seat) ≡ own }
    ensures of { IsSeatOf turns.now result }
    ensures number { number (view result) ≡ number (view seat) }
    ensures made { (view result).made ≡ (view seat).made }
{
    let mut turn = turns.enter(rt, seat);
    if turn.home().add(own) {
        turns.leave_with(turn)
    } else {
        turns.leave(turn)
    }
}

fn take_turns<R: Wait>(
    rt: &R,
    turns: &Turns<Journal>,
    mut seat: Seat<Journal>,
    own: u64,
) -> Seat<Journal>
    requires of { IsSeatOf turns.now seat }
    requires number { number (view seat) ≡ own }
    ensures of { IsSeatOf turns.now result }
    ensures made { (view result).made ≡ (view seat).made }
{
    for _ in 0..TURNS {
        seat = take_turn(rt, turns, seat, own);
    }
    seat
}

/// Whether the seats 0 and 1 have added their numbers at each of their turns.
fn has_all_turns(journal: &Journal) -> bool {
    let of_second = journal.entries.iter().filter(|owner| **owner == 1).count();
    journal.count() == 2 * TURNS && of_second as u64 == TURNS
}

/// A lock over an empty journal, and its first seat.
fn new_lock(alloc: Global) -> Result<(Turns<Journal>, Seat<Journal>), Fail>
    ensures of { IfOk result (λ made. IsSeatOf made.0 made.1) }
    ensures view { IfOk result (λ made. view made.1 ≡ first_view tt) }
{
    let journal = Journal {
        entries: Vec::new(alloc),
    };
    match Turns::new(alloc, journal) {
        Ok(made) => Ok(made),
        Err(_) => Err(Fail::new("no memory")),
    }
}

/// The journal of a lock that doesn't close without its last seat, and then closes with it.
fn closed_at_last(
    turns: Turns<Journal>,
    seats: Vec<Seat<Journal>>,
    last: Seat<Journal>,
) -> Result<Journal, Fail>
    requires of { All (λ s. IsSeatOf turns s) seats.items }
    requires last { IsSeatOf turns last }
{
    let Err(Missing { turns, mut seats }) = turns.close(seats) else {
        return Err(Fail::new("closed without its last seat"));
    };
    seats.push(last)?;
    match turns.close(seats) {
        Ok(journal) => Ok(journal),
        Err(missing) => {
            drop(missing);
            Err(Fail::new("did not close with all its seats"))
        }
    }
}

#[test]
fn two_seats_take_turns_and_close(rt: HostRuntime) -> Result<(), Fail> {
    let alloc = rt.alloc();
    let (turns, first) = new_lock(alloc)?;
    let lock = &turns;
    let (first, second) = lock.split(first);
    let (first, second) = join(
        &rt,
        || take_turns(&rt, lock, first, 0),
        || take_turns(&rt, lock, second, 1),
    );
    let mut seats = Vec::with_capacity(alloc, 2)?;
    seats.push_reserved(first);
    let journal = closed_at_last(turns, seats, second)?;
    assert!(rt; has_all_turns(&journal));
    Ok(())
}

#[test]
fn seats_close_in_any_order(rt: HostRuntime) -> Result<(), Fail> {
    let alloc = rt.alloc();
    let (turns, first) = new_lock(alloc)?;
    let (first, second) = turns.split(first);
    let (first, third) = turns.split(first);
    let second = take_turn(&rt, &turns, second, 1);
    let mut seats = Vec::with_capacity(alloc, 2)?;
    seats.push_reserved(third);
    seats.push_reserved(second);
    let journal = closed_at_last(turns, seats, first)?;
    assert!(rt; journal.count() == 1);
    Ok(())
}
