//! The rule of the lock's table, and the names of its steps.

ghost use Rattle.turn_lock.specs.Views.{first_known, split_known, new_known, joined_known, spent_known};
ghost use Rattle.turn_lock.specs.Rule.{LockRule, Tried, Left};

use crate::chronicle::Chronicle;
use crate::views::Known;
use atomic_table::{Join, Play, Split, TableRule};
use std::marker::PhantomData;
use std::snapshot::Snapshot;

/// The key is the value that the lock began with, of which the rule reads the base.
pub struct Law<H> {
    marker: PhantomData<H>,
}

impl<H: Chronicle> TableRule<Option<H>, Known<H::Item, H::Base, H::Mark>, Snapshot<H>> for Law<H> {
    ghost holds = { λ k. LockRule H.items H.base H.owner H.at H.grows (H.base k.value) };

    ghost first = { λ k. first_known (H.base k.value) (H.at k.value) };
}

pub struct TakesTurn<H> {
    marker: PhantomData<H>,
}

impl<H: Chronicle> Play<Option<H>, Known<H::Item, H::Base, H::Mark>> for TakesTurn<H> {
    ghost then = { Tried H.items H.base H.owner H.at H.grows };
}

pub struct EndsTurn<H> {
    marker: PhantomData<H>,
}

impl<H: Chronicle> Play<Option<H>, Known<H::Item, H::Base, H::Mark>> for EndsTurn<H> {
    ghost then = { Left H.items H.base H.owner H.at H.grows };
}

pub struct NewSeat;

impl<I, B, M> Split<Known<I, B, M>> for NewSeat {
    ghost left = { split_known };

    ghost right = { new_known };
}

pub struct AllSeats;

impl<I, B, M> Join<Known<I, B, M>> for AllSeats {
    ghost both = { joined_known };

    ghost spent = { spent_known };
}
