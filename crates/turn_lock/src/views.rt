//! What a seat knows. No value of these types is made: they stand in contracts alone.

use std::collections::LinkedList;

/// A number, and the items of that number that the list has so far.
pub struct Claim<I> {
    pub number: u64,
    pub mine: LinkedList<I>,
}

/// What a seat knows of the lock.
pub struct View<I, B> {
    /// The base of the lock. A view that was joined into another has none.
    pub base: Option<B>,
    /// One claim for a seat, none for a view that was joined into another, and all of them for
    /// the view that `close` joins the others into.
    pub claims: LinkedList<Claim<I>>,
    /// How the list began when the seat last looked.
    pub seen: LinkedList<I>,
    /// The seat has the turn.
    pub holds: bool,
    /// At the seat that makes seats, how many there are, itself included. At each other it is 0.
    pub made: u64,
    /// How the list began when each seat that was joined into this one last looked.
    pub others_seen: LinkedList<LinkedList<I>>,
}

/// What a seat knows of the lock, and of the mark of the value under it.
pub struct Known<I, B, M> {
    pub view: View<I, B>,
    /// The mark as the seat's last turn left it. A seat that had no turn knows what its maker knew,
    /// and the first seat the mark that the value began with. A seat that was joined into another
    /// knows none.
    pub at: Option<M>,
    /// The same of the mark as the seat's last turn found it.
    pub found: Option<M>,
    /// How many turns the seat has had.
    pub turns: u64,
}
