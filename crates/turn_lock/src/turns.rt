//! The lock, its seats and their turns.
ghost use Rattle.std.specs.Prelude.{◌≡◌, ◌≢◌, ℕ, ◌+◌, ◌*◌, ◌%◌, ◌^◌, ◌<◌, ◌≤◌, List, [], ◌∷◌, ◌++◌, length, map, All, slice_get, IfOk, IfErr, IfSome, IfNone, true, false, Some, None};
ghost use Rattle.turn_lock.specs.Items.{items_of, BeginsWith, IsAllOf, Shares};
ghost use Rattle.turn_lock.specs.Views.{number, mine, BeginsWithAll, IsSingle, first_view, split_view, new_view, entered, left, left_with, first_known, split_known, new_known, entered_known, left_known, left_with_known};
ghost use Rattle.turn_lock.specs.Rule.{Fits};

use crate::chronicle::Chronicle;
use crate::law::{AllSeats, EndsTurn, Law, NewSeat, TakesTurn};
use crate::views::Known;
use atomic_table::{Refused, Table};
use std::alloc::Global;
use std::hint::spin_loop;
use std::snapshot::Snapshot;
use std::sync::Wait;
use std::sync::atomic::{AtomicU64, Ordering};

/// How often a seat looks whether the turn is free before its thread sleeps.
const LOOKS: u32 = 100;

/// There was no memory.
#[derive(Clone, Copy, Debug, PartialEq, Eq)]
pub struct Memory;

type Token<H> = atomic_table::Seat<
    Option<H>,
    Known<<H as Chronicle>::Item, <H as Chronicle>::Base, <H as Chronicle>::Mark>,
>;

type Words<H> = Table<
    Option<H>,
    Known<<H as Chronicle>::Item, <H as Chronicle>::Base, <H as Chronicle>::Mark>,
    Snapshot<H>,
    Law<H>,
    Global,
>;

/// A value under a lock. Who has the turn has the value.
#[derive(Drop)]
pub struct Turns<H: Chronicle> {
    table: Words<H>,
    // How many threads sleep, or are about to. No clause rests on it.
    sleepers: AtomicU64,
    ghost sized: { (table.shared.table_id.words ≡ 1) × (table.shared.table_id.slots ≡ 1) },
}

/// The right to wait for a turn. It has a number of its own, and knows the items of that number.
#[derive(Drop)]
pub struct Seat<H: Chronicle> {
    token: Token<H>,
    seen: u64,
    made: u64,
    ghost waits: { (token.me.1 ≡ []) × (token.me.0.view.holds ≡ false) },
    ghost single: { IsSingle token.me.0.view },
    ghost counts: { (seen ≡ length token.me.0.view.seen) × (made ≡ token.me.0.view.made) },
}

// The turn, while the value is out.
struct Hold<H: Chronicle> {
    token: Token<H>,
    seen: u64,
    made: u64,
    ghost holds: { (token.me.1 ≡ (0, None) ∷ []) × (token.me.0.view.holds ≡ true) },
    ghost single: { IsSingle token.me.0.view },
    ghost counts: { (seen ≡ length token.me.0.view.seen) × (made ≡ token.me.0.view.made) },
    ghost fits: { seen < 2 ^ 63 },
}

/// A seat that has the turn, and the value. It has no `Drop`, so it ends in `leave` or
/// `leave_with`.
pub struct Turn<H: Chronicle> {
    home: H,
    hold: Hold<H>,
}

/// The seats handed to `close` are not all that were made. The lock and the seats come back.
#[derive(Drop)]
pub struct Missing<H: Chronicle> {
    pub turns: Turns<H>,
    pub seats: Vec<Seat<H>>,
}

impl<H: Chronicle> Turns<H> {
    ghost use Rattle.turn_lock.specs.Words.{view, turn_view, known, turn_known, IsSeatOf, IsTurnOf, claim_of};

    /// A lock over a value with an empty list, and the first seat. It has the number 0, and it
    /// alone can make seats. `Err` says that memory ran out, and drops the value.
    pub fn new(alloc: Global, home: H) -> Result<(Turns<H>, Seat<H>), Memory>
    where
        H: Drop,
        requires empty { H.items home ≡ [] }
        ensures of { IfOk result (λ made. IsSeatOf made.0 made.1) }
        ensures view { IfOk result (λ made. view made.1 ≡ first_view (H.base home)) }
        ensures known { IfOk result (λ made. known made.1 ≡ first_known (H.base home) (H.at home)) }
    {
        let about = Snapshot::of(&home);
        let Ok(mut slots) = Vec::with_capacity(alloc, 1) else {
            return Err(Memory);
        };
        slots.push_reserved(Some(home));
        match Table::new(alloc, &[0], slots, &about) {
            Ok((table, token)) => Ok((
                Turns {
                    table,
                    sleepers: AtomicU64::new(0),
                },
                Seat {
                    token,
                    seen: 0,
                    made: 1,
                },
            )),
            Err(Refused { slots: _ }) => Err(Memory),
        }
    }

    /// Makes a seat with the next number and no items. Only the first seat can, and it comes back
    /// with the count of seats one higher.
    pub fn split(&self, seat: Seat<H>) -> (Seat<H>, Seat<H>)
        requires of { IsSeatOf self.now seat }
        requires made { (0 < (view seat).made) × ((view seat).made < 2 ^ 62) }
        ensures first { IsSeatOf self.now result.0 × (view result.0 ≡ split_view (view seat)) }
        ensures second { IsSeatOf self.now result.1 × (view result.1 ≡ new_view (view seat)) }
        ensures first_known { known result.0 ≡ split_known (known seat) }
        ensures second_known { known result.1 ≡ new_known (known seat) }
    {
        let Seat {
            mut token,
            seen,
            made,
        } = seat;
        let second = self.table.shared.split_seat::<NewSeat>(&mut token);
        (
            Seat {
                token,
                seen,
                made: made + 1,
            },
            Seat {
                token: second,
                seen,
                made: 0,
            },
        )
    }

    /// Waits until no other seat has the turn, and takes it. The list begins with what the seat
    /// has seen, and the items of the seat's number are those that it has left there, in order. The
    /// mark is what turns may have made of the mark that the seat knows.
    pub fn enter<R: Wait>(&self, rt: &R, seat: Seat<H>) -> Turn<H>
        requires { IsSeatOf self.now seat }
        ensures of { IsTurnOf self.now result }
        ensures view { turn_view result ≡ entered (view seat) (H.items result.home) }
        ensures known { turn_known result
            ≡ entered_known (known seat) (H.items result.home) (H.at result.home) }
        ensures grown { (m : H.Mark) → (known seat).at ≡ Some m → H.grows m (H.at result.home) }
        ensures base { (view seat).base ≡ Some (H.base result.home) }
        ensures begins { BeginsWith (H.items result.home) (view seat).seen }
        ensures own { items_of (H.owner (H.base result.home)) (number (view seat))
            (H.items result.home) ≡ mine (view seat) }
        ensures met { items_of (H.owner (H.base result.home)) (number (view seat)) (view seat).seen
            ≡ mine (view seat) }
    {
        let Seat {
            mut token,
            seen: _,
            made,
        } = seat;
        let word = self.take_turn(rt, &mut token);
        let Some(home) = self.table.shared.exchange(&mut token, 0, None) else {
            unreachable!()
        };
        let seen = word / 2;
        Turn {
            home,
            hold: Hold { token, seen, made },
        }
    }

    // The word as it was, which is twice the number of items.
    fn take_turn<R: Wait>(&self, rt: &R, token: &mut Token<H>) -> u64
        requires of { token.old.table_id ≡ self.now.table.shared.table_id }
        requires waits { (token.old.me.1 ≡ []) × IsSingle token.old.me.0.view }
        ensures of { token.new.table_id ≡ token.old.table_id }
        ensures took { (h : H)
            × (token.new.me
            ≡ (entered_known token.old.me.0 (H.items h) (H.at h), (0, Some h) ∷ []))
            × Fits H.items H.base H.owner H.at H.grows token.old.me.0 h
            × (result ≡ 2 * length (H.items h)) }
    {
        for _ in rt.forever() {
            let word = self.free_word(rt);
            let found = self
                .table
                .shared
                .compare_exchange::<TakesTurn<H>>(token, 0, word, word + 1);
            if found == word {
                return word;
            }
        }
        unreachable!()
    }

    // The word, once no seat has the turn. Its thread looks some times before it sleeps.
    fn free_word<R: Wait>(&self, rt: &R) -> u64
        ensures { result % 2 ≡ 0 }
    {
        for _ in rt.forever() {
            for _ in 0..LOOKS {
                let word = self.table.shared.peek(0);
                if word % 2 == 0 {
                    return word;
                }
                spin_loop();
            }
            self.sleep(rt);
        }
        unreachable!()
    }

    // Sleeps while a seat has the turn. The thread is counted before it looks at the word, and who
    // leaves writes the word before it looks at the count: so who sleeps is woken.
    fn sleep<R: Wait>(&self, rt: &R) {
        self.sleepers.fetch_add(1, Ordering::SeqCst);
        let word = self.table.shared.peek(0);
        if word % 2 == 1 {
            let expected = (word & 0xffff_ffff) as u32;
            self.table.shared.park(rt, 0, expected);
        }
        self.sleepers.fetch_sub(1, Ordering::SeqCst);
    }

    // Wakes one thread that sleeps, where there is one.
    fn wake(&self) {
        if self.sleepers.load(Ordering::SeqCst) > 0 {
            self.table.shared.wake_one(0);
        }
    }

    /// Gives the turn back, with the list as it was. The seat knows the mark as it found it, and as
    /// it leaves it.
    pub fn leave(&self, turn: Turn<H>) -> Seat<H>
        requires of { IsTurnOf self.now turn }
        requires base { (turn_view turn).base ≡ Some (H.base turn.home) }
        requires same { H.items turn.home ≡ (turn_view turn).seen }
        requires kept { (m : H.Mark) → (turn_known turn).found ≡ Some m
            → H.grows m (H.at turn.home) }
        ensures of { IsSeatOf self.now result }
        ensures view { view result ≡ left (turn_view turn) }
        ensures known { known result ≡ left_known (turn_known turn) (H.at turn.home) }
        ensures met { items_of (H.owner (H.base turn.home)) (number (turn_view turn))
            (turn_view turn).seen ≡ mine (turn_view turn) }
    {
        let seen = turn.hold.seen;
        self.bring_home(turn, seen)
    }

    /// Gives the turn back, with one item more, which is the seat's. The seat knows the mark as it
    /// found it, and as it leaves it.
    pub fn leave_with(&self, turn: Turn<H>) -> Seat<H>
        requires of { IsTurnOf self.now turn }
        requires base { (turn_view turn).base ≡ Some (H.base turn.home) }
        requires item { (x : H.Item) × (H.items turn.home ≡ (turn_view turn).seen ++ x ∷ [])
            × (H.owner (H.base turn.home) x ≡ number (turn_view turn)) }
        requires most { length (H.items turn.home) ≤ 2 ^ 62 }
        requires kept { (m : H.Mark) → (turn_known turn).found ≡ Some m
            → H.grows m (H.at turn.home) }
        ensures of { IsSeatOf self.now result }
        ensures view { (x : H.Item) → H.items turn.home ≡ (turn_view turn).seen ++ x ∷ []
            → view result ≡ left_with (turn_view turn) (x ∷ []) }
        ensures known { (x : H.Item) → H.items turn.home ≡ (turn_view turn).seen ++ x ∷ []
            → known result ≡ left_with_known (turn_known turn) (x ∷ []) (H.at turn.home) }
        ensures met { items_of (H.owner (H.base turn.home)) (number (view result))
            (H.items turn.home) ≡ mine (view result) }
    {
        let seen = turn.hold.seen + 1;
        self.bring_home(turn, seen)
    }

    // Puts the value back, says in the word how many items it has, and wakes one that waits. The
    // seat has seen so many.
    fn bring_home(&self, turn: Turn<H>, seen: u64) -> Seat<H>
        requires of { IsTurnOf self.now turn }
        requires base { (turn_view turn).base ≡ Some (H.base turn.home) }
        requires items { (more : List H.Item) × (H.items turn.home ≡ (turn_view turn).seen ++ more)
            × IsAllOf (H.owner (H.base turn.home)) (number (turn_view turn)) more }
        requires kept { (m : H.Mark) → (turn_known turn).found ≡ Some m
            → H.grows m (H.at turn.home) }
        requires count { (seen ≡ length (H.items turn.home)) × (seen < 2 ^ 63) }
        ensures of { IsSeatOf self.now result }
        ensures known { (more : List H.Item) → H.items turn.home ≡ (turn_view turn).seen ++ more
            → known result ≡ left_with_known (turn_known turn) more (H.at turn.home) }
        ensures met { (more : List H.Item) → H.items turn.home ≡ (turn_view turn).seen ++ more
            → items_of (H.owner (H.base turn.home)) (number (turn_view turn)) (H.items turn.home)
            ≡ mine (turn_view turn) ++ more }
    {
        let Turn { home, hold } = turn;
        let Hold {
            mut token,
            seen: _,
            made,
        } = hold;
        let before = self.table.shared.exchange(&mut token, 0, Some(home));
        let None = before else { unreachable!() };
        self.table
            .shared
            .store::<EndsTurn<H>>(&mut token, 0, 2 * seen);
        self.wake();
        Seat { token, seen, made }
    }
}

impl<H: Chronicle> Turns<H> {
    ghost use Rattle.turn_lock.specs.Words.{view, IsSeatOf, claim_of, FirstIs};

    /// Ends the lock and gives the value, where the seats are all that were made, in any order.
    /// Each item of the list is then an own item of just one seat, in order, and the list begins
    /// with what each seat has seen. Else the lock and the seats come back.
    pub fn close(self, mut seats: Vec<Seat<H>>) -> Result<H, Missing<H>>
    where
        H: Drop,
        requires of { All (λ s. IsSeatOf self s) seats.items }
        ensures missing { IfErr result (λ m.
            All (λ s. (view s).made ≢ length seats.items) seats.items) }
        ensures back { IfErr result (λ m. (m.turns ≡ self) × (m.seats.items ≡ seats.items)) }
        ensures all { IfOk result (λ h.
            FirstIs (λ v. v.base ≡ Some (H.base h)) seats.items) }
        ensures some { IfOk result (λ _. 0 < length seats.items) }
        ensures shares { IfOk result (λ h. Shares (H.owner (H.base h)) (H.items h)
            (map claim_of seats.items)) }
        ensures begins { IfOk result (λ h.
            All (λ s. BeginsWith (H.items h) (view s).seen) seats.items) }
    {
        let Some(place) = Self::first_place(seats.as_slice()) else {
            return Err(Missing { turns: self, seats });
        };
        seats.swap(0, place);
        let token = self.join_all(seats);
        Ok(self.take_home(token))
    }

    // The place of the first seat, where it has made as many seats as there are here.
    fn first_place(seats: &[Seat<H>]) -> Option<usize>
        ensures some { IfSome result (λ place. (place < length seats.now)
            × IfSome (slice_get seats.now place) (λ s. (view s).made ≡ length seats.now)) }
        ensures none { IfNone result (All (λ s. (view s).made ≢ length seats.now) seats.now) }
    {
        let count = seats.len() as u64;
        for place in 0..seats.len() {
            if seats[place].made == count {
                return Some(place);
            }
        }
        None
    }

    // The first seat's token, which knows what all the seats know of their items.
    fn join_all(&self, mut seats: Vec<Seat<H>>) -> Token<H>
    where
        H: Drop,
        requires of { All (λ s. IsSeatOf self.now s) seats.items }
        requires some { 0 < length seats.items }
        ensures of { result.table_id ≡ self.now.table.shared.table_id }
        ensures waits { (result.me.1 ≡ []) × (result.me.0.view.holds ≡ false) }
        ensures claims { result.me.0.view.claims ≡ map claim_of seats.items }
        ensures seen { (items : List H.Item) → BeginsWithAll items result.me.0.view
            → All (λ s. BeginsWith items (view s).seen) seats.items }
        ensures first { IfSome (slice_get seats.items 0) (λ s.
            (result.me.0.view.made ≡ (view s).made)
            × (result.me.0.view.base ≡ (view s).base)) }
    {
        let first = seats.remove(0);
        let Seat {
            mut token,
            seen: _,
            made: _,
        } = first;
        for seat in seats {
            let Seat {
                token: other,
                seen: _,
                made: _,
            } = seat;
            self.table.shared.join_seat::<AllSeats>(&mut token, other);
        }
        token
    }

    // The value, where one token has every claim.
    fn take_home(self, token: Token<H>) -> H
        requires of { token.table_id ≡ self.table.shared.table_id }
        requires waits { (token.me.1 ≡ []) × (token.me.0.view.holds ≡ false) }
        requires all { (length token.me.0.view.claims ≡ token.me.0.view.made)
            × (0 < token.me.0.view.made) }
        ensures base { 0 < length token.me.0.view.claims
            → token.me.0.view.base ≡ Some (H.base result) }
        ensures shares { Shares (H.owner (H.base result)) (H.items result)
            token.me.0.view.claims }
        ensures begins { BeginsWithAll (H.items result) token.me.0.view }
    {
        let mut closed = self.table.close_with(token);
        let home = closed.take(0);
        closed.free();
        let Some(home) = home else { unreachable!() };
        home
    }
}

impl<H: Chronicle> Turn<H> {
    ghost use Rattle.std.specs.Borrow.{sem};
    ghost use Rattle.turn_lock.specs.Lends.{LendsHome};

    /// The value under the lock.
    pub fn home(&mut self) -> &mut H
        ensures* writes_back { sem 𝓛 (LendsHome H.row H.Item.row H.Base.row H.Mark.row
            H.Chronicle self.entry result) }
        ensures value { result.now ≡ self.old.home }
    {
        &mut self.home
    }
}

impl<H: Chronicle> Seat<H> {
    ghost use Rattle.turn_lock.specs.Words.{view};

    /// How many items the list had when the seat last looked.
    pub fn seen(&self) -> u64
        ensures { result ≡ length (view self.now).seen }
    {
        self.seen
    }
}
