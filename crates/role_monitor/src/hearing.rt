//! Updates that other roles begin.

ghost use Rattle.std.specs.Prelude.{◌≡◌, List, OnErr, OnOk};
ghost use Rattle.dioc_terms.specs.Plain.{PlainRule};
ghost use Rattle.role_monitor.specs.Monitoring.{heard_update, with_update};
ghost use Rattle.rule_book.specs.KeptBooks.{book_of, IsBookOf};

use crate::updates::{Update, epoch_level, update_numbered};
use dioc_terms::{Index, Memory, Name};
use rule_book::Book;

/// Another's scope entry: the update is kept in mind, with its rule and one more than the level of
/// the scope's epoch. A number 0, a number that was heard of, a rule that isn't in the book and an
/// epoch that isn't known change nothing. After want of memory the updates are as they were; a
/// level past 4,294,967,295 is such a want.
pub(crate) fn hear(
    book: &Book,
    updates: &mut Vec<Update>,
    index: Index,
    name: &Name,
    epoch: u32,
) -> Result<(), Memory>
    ensures heard { (rules : List PlainRule) → IsBookOf rules book.now → OnOk result
        (updates.new.items ≡ with_update updates.old.items
        (heard_update rules (book_of book.now) updates.old.items index name.now epoch)) }
    ensures same { OnErr result (updates.new.items ≡ updates.old.items) }
{
    if epoch == 0 || update_numbered(updates.as_slice(), epoch).is_some() {
        return Ok(());
    }
    let Some(rule) = book.find(name) else {
        return Ok(());
    };
    let Some(level) = epoch_level(updates.as_slice(), index.epoch) else {
        return Ok(());
    };
    let Some(level) = level.checked_add(1) else {
        return Err(Memory);
    };
    updates.push(Update { epoch, rule, level })?;
    Ok(())
}
