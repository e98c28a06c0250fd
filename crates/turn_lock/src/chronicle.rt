//! What may lie under a turn lock.
ghost use Rattle.std.specs.Prelude.{◌≡◌, ℕ, List, length};

/// A value that keeps a list of items, each with an owner, and a mark beside it. Contracts read the
/// list, the owners and the mark.
pub trait Chronicle {
    /// What the list has.
    type Item;

    /// What says who owns an item, and never changes while the value lies under a lock.
    type Base;

    /// What else contracts read of the value. A turn may change it without adding an item.
    type Mark;

    // The list, from the first item to the last.
    ghost items: { Self → List Self.Item };

    ghost base: { Self → Self.Base };

    // The number of an item's owner.
    ghost owner: { Self.Base → Self.Item → ℕ };

    // The mark of the value.
    ghost at: { Self → Self.Mark };

    // What a turn may make of a mark. It may make anything of it where this holds of any two.
    ghost grows: { Self.Mark → Self.Mark → Type 0 };

    /// How many items the list has.
    fn count(&self) -> u64
        ensures { result ≡ length (items self.now) };

    // A turn may leave a mark as it is.
    ghost stays: { (m : Self.Mark) → grows m m };

    // What two turns may make of a mark, one may.
    ghost goes_on: { (a b c : Self.Mark) → grows a b → grows b c → grows a c };
}
