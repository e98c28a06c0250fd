//! What a picture shows.

ghost use Rattle.std.specs.Prelude.{◌≤◌, ◌<◌, ◌^◌, length};
ghost use Rattle.limits.specs.Limits.{most_roles};

use dioc_terms::{Entry, Last, Role};

/// A trace, and the lanes of its picture.
#[derive(Clone, Copy)]
pub struct Scene<'a> {
    pub lanes: &'a [Role],
    pub entries: &'a [Entry],
    pub last: &'a Option<Last>,
    ghost lanes_within: { length lanes.now ≤ most_roles },
    ghost entries_within: { length entries.now < 2 ^ 32 },
}
