//! The tickets, and who draws them.

ghost use Rattle.std.specs.Prelude.{◌≡◌, ◌<◌, ◌≤◌, ℕ, [], length, IfOk};
ghost use Rattle.ticket_table.specs.Counts.{times};
ghost use Rattle.ticket_table.specs.Rule.{most_of_part, most_parts};
ghost use Rattle.ticket_table.specs.Views.{holding, joined, newcomer, one_part_less, with_ticket};

use crate::law::{BothDrawers, Draws, Law, NewDrawer};
use crate::views::View;
use atomic_table::Table;
use std::alloc::Global;

/// There was no memory.
#[derive(Clone, Copy, Debug, PartialEq, Eq)]
pub struct Memory;

type Token = atomic_table::Seat<(), View>;

/// Numbers from 0 up, each of which is drawn at most once.
#[derive(Drop)]
pub struct Tickets {
    table: Table<(), View, u64, Law, Global>,
    ghost sized: { (table.shared.table_id.words ≡ 1) × (table.shared.table_id.slots ≡ 0) },
}

/// The right to draw. It knows the tickets that it has drawn.
#[derive(Drop)]
pub struct Drawer {
    token: Token,
}

impl Tickets {
    ghost use Rattle.ticket_table.specs.Words.{IsDrawerOf, all_parts, drawn_by, parts_of, view};

    /// Tickets of which none is drawn yet, and a drawer that stands for `parts` drawers: others are
    /// made of it by `split`. `Err` is want of memory.
    pub fn new(alloc: Global, parts: u64) -> Result<(Tickets, Drawer), Memory>
        requires { parts ≤ most_parts }
        ensures of { IfOk result (λ made. IsDrawerOf made.0 made.1) }
        ensures parts { IfOk result (λ made. all_parts made.0 ≡ parts) }
        ensures view { IfOk result (λ made. view made.1 ≡ holding parts []) }
    {
        match Table::of_words(alloc, &[0], &parts) {
            Ok((table, token)) => Ok((Tickets { table }, Drawer { token })),
            Err(_) => Err(Memory),
        }
    }

    /// Makes a drawer that has drawn nothing, of one that has drawn nothing and stands for several.
    pub fn split(&self, drawer: &mut Drawer) -> Drawer
        requires of { IsDrawerOf self.now drawer.old }
        requires parts { 1 < parts_of drawer.old }
        requires none { drawn_by drawer.old ≡ [] }
        ensures of { IsDrawerOf self.now drawer.new × IsDrawerOf self.now result }
        ensures view { view drawer.new ≡ one_part_less (view drawer.old) }
        ensures new { view result ≡ newcomer (view drawer.old) }
    {
        let token = self.table.shared.split_seat::<NewDrawer>(&mut drawer.token);
        Drawer { token }
    }

    /// Draws a ticket, which nobody else draws. It takes one step, and waits for nobody. The ticket
    /// is no less than the number of those that the drawer had drawn before.
    pub fn draw(&self, drawer: &mut Drawer) -> u64
        requires of { IsDrawerOf self.now drawer.old }
        requires some { 0 < parts_of drawer.old }
        requires few { length (drawn_by drawer.old) < most_of_part }
        ensures of { IsDrawerOf self.now drawer.new }
        ensures view { view drawer.new ≡ with_ticket (view drawer.old) result }
        ensures beyond { length (drawn_by drawer.old) ≤ result }
    {
        self.table
            .shared
            .fetch_add::<Draws>(&mut drawer.token, 0, 1)
    }

    /// Joins a drawer into another, which then has what both have drawn.
    pub fn join(&self, drawer: &mut Drawer, other: Drawer)
        requires of { IsDrawerOf self.now drawer.old × IsDrawerOf self.now other }
        ensures of { IsDrawerOf self.now drawer.new }
        ensures view { view drawer.new ≡ joined (view drawer.old) (view other) }
    {
        let Drawer { token } = other;
        self.table
            .shared
            .join_seat::<BothDrawers>(&mut drawer.token, token);
    }

    /// Ends the tickets, where one drawer stands for all. The answer is how many tickets were
    /// drawn: each below it stands just once among those of the drawer, and no other does.
    pub fn close(self, drawer: Drawer) -> u64
        requires of { IsDrawerOf self drawer }
        requires all { parts_of drawer ≡ all_parts self }
        ensures once { (n : ℕ) → n < result → times n (drawn_by drawer) ≡ 1 }
        ensures none { (n : ℕ) → result ≤ n → times n (drawn_by drawer) ≡ 0 }
    {
        let Drawer { token } = drawer;
        let closed = self.table.close_with(token);
        let count = closed.word(0);
        closed.free();
        count
    }
}
