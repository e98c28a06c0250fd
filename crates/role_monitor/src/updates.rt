//! The updates that a monitor has heard of.

ghost use Rattle.std.specs.Prelude.{◌≡◌, option_copied};
ghost use Rattle.role_monitor.specs.Monitoring.{epoch_level, update_numbered};

/// An update of a trace: its number, the number of the rule whose body it is, and how many updates
/// that body stands inside, itself counted.
#[derive(Clone, Copy)]
pub(crate) struct Update {
    pub epoch: u32,
    pub rule: u32,
    pub level: u32,
}

/// The first update of this number.
pub(crate) fn update_numbered(updates: &[Update], epoch: u32) -> Option<&Update>
    ensures { option_copied result ≡ update_numbered epoch updates.now }
{
    updates.iter().find(|update| update.epoch == epoch)
}

/// How many updates the texts of an epoch stand inside, `None` where the epoch isn't known. The
/// program's own text, of epoch 0, stands inside none.
#[tactic(auto, using(crate::proofs::Levels::level_found, crate::proofs::Levels::level_none))]
pub(crate) fn epoch_level(updates: &[Update], epoch: u32) -> Option<u32>
    ensures { result ≡ epoch_level updates.now epoch }
{
    if epoch == 0 {
        return Some(0);
    }
    match update_numbered(updates, epoch) {
        None => None,
        Some(update) => Some(update.level),
    }
}
