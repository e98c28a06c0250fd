//! The script's next change, made on the book and the history.

ghost use Rattle.std.specs.Prelude.{◌≡◌, ◌<◌, ◌≤◌, ℕ, List, IfErr, OnErr, OnOk, length, map};
ghost use Rattle.dioc_terms.specs.Messages.{visible};
ghost use Rattle.dioc_terms.specs.Plain.{PlainRule};
ghost use Rattle.net_core.specs.KeptParts.{due_seen};
ghost use Rattle.net_core.specs.Scripts.{ChangeMade, ChangeRefused, change_in};
ghost use Rattle.rule_book.specs.KeptBooks.{book_of, coming, IsBookOf};

use crate::bodies::Coming;
use crate::faults::ChangeFault;
use rule_book::Book;
use std::collections::VecDeque;
use trace_book::History;

/// Makes the next of the changes that are still to come. After a refusal they, the book and the
/// history are as they were.
pub fn make_change(
    script: &mut VecDeque<Coming>,
    book: &mut Book,
    history: &mut History,
) -> Result<(), ChangeFault>
    requires { coming book.old ≡ map change_in (map due_seen script.old.items) }
    ensures made { (rules : List PlainRule) → IsBookOf rules book.old → OnOk result
        (ChangeMade rules (map due_seen script.old.items) (length (visible history.old.entries))
        book.old history.old.entries (map due_seen script.new.items) book.new
        history.new.entries) }
    ensures refused { IfErr result
        (ChangeRefused (map due_seen script.old.items) (length (visible history.old.entries))) }
    ensures same_script { OnErr result (script.new.items ≡ script.old.items) }
    ensures same_book { OnErr result (book.new ≡ book.old) }
    ensures same_history { OnErr result (history.new ≡ history.old) }
{
    let Some(next) = script.front() else {
        return Err(ChangeFault::NoMore);
    };
    if history.visible_len() < next.after {
        return Err(ChangeFault::NotYet);
    }
    history.reserve(1)?;
    let Some(Coming { change, entry, .. }) = script.pop_front() else {
        unreachable!()
    };
    book.apply(&change);
    history.push(entry);
    Ok(())
}
