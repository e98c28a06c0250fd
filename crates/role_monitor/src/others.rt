//! Entries of the other roles, which are believed.

ghost use Rattle.std.specs.Prelude.{◌≡◌, OnErr, OnOk};
ghost use Rattle.dioc_terms.specs.Plain.{plain, setting};
ghost use Rattle.role_monitor.specs.Judging.{Believes, RulesInCast, SameMessages};
ghost use Rattle.rule_book.specs.KeptBooks.{book_of, IsBookOf};

use crate::hearing::hear;
use crate::messages::receive;
use crate::updates::Update;
use dioc_terms::{Bundle, Chosen, Entry, Memory, Role};
use role_mailbox::Mail;
use rule_book::Book;
use std::alloc::Global;

/// Believes an entry of another role: of a put to the role the message, of a scope the update.
/// After want of memory all is as it was.
pub(crate) fn believe(
    alloc: Global,
    bundle: &Bundle,
    me: &Role,
    book: &Book,
    updates: &mut Vec<Update>,
    mail: &mut Mail,
    entry: &Entry,
) -> Result<(), Memory>
    requires rules { RulesInCast (plain bundle.now) }
    requires book { IsBookOf (plain bundle.now).rules book.now }
    ensures believed { OnOk result (Believes (setting (plain bundle.now)) me.now mail.old
        (book_of book.now) updates.old.items entry.now mail.new updates.new.items) }
    ensures same_mail { OnErr result (SameMessages mail.old mail.new) }
    ensures same_updates { OnErr result (updates.new.items ≡ updates.old.items) }
{
    match entry {
        Entry::Put { key, note } => {
            if key.to != *me {
                return Ok(());
            }
            receive(alloc, bundle, updates.as_slice(), mail, key, note)
        }
        Entry::Scope { index, chosen, .. } => match chosen {
            Chosen::Keep => Ok(()),
            Chosen::Rule { name, epoch } => hear(book, updates, *index, name, *epoch),
        },
        _ => Ok(()),
    }
}
