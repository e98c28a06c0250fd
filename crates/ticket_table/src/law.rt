//! The rule of the tickets' table, and the names of its steps.

ghost use Rattle.std.specs.Prelude.{[]};
ghost use Rattle.ticket_table.specs.Rule.{Drew, TicketRule};
ghost use Rattle.ticket_table.specs.Views.{holding, joined, newcomer, one_part_less, spent};

use crate::views::View;
use atomic_table::{Join, Play, Split, TableRule};

/// The key is the number of all parts.
pub struct Law;

impl TableRule<(), View, u64> for Law {
    ghost holds = { λ parts. TicketRule parts };

    ghost first = { λ parts. holding parts [] };
}

pub struct Draws;

impl Play<(), View> for Draws {
    ghost then = { Drew };
}

pub struct NewDrawer;

impl Split<View> for NewDrawer {
    ghost left = { one_part_less };

    ghost right = { newcomer };
}

pub struct BothDrawers;

impl Join<View> for BothDrawers {
    ghost both = { joined };

    ghost spent = { spent };
}
