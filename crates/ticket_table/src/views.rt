//! What a drawer knows. No value of this type is made: it stands in contracts alone.

use std::collections::LinkedList;

/// What a drawer knows of the tickets.
pub struct View {
    /// How many drawers it stands for: one, or as many as were joined, or are to be made of it. One
    /// that was joined into another has none.
    pub parts: u64,
    /// The tickets that it has drawn, in their order.
    pub drawn: LinkedList<u64>,
}
