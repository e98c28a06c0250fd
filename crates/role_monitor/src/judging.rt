//! Entries of the role itself.

ghost use Rattle.std.specs.Prelude.{◌≡◌, IfOk, OnErr};
ghost use Rattle.std.specs.Bool.{OnFalse, OnTrue};
ghost use Rattle.dioc_terms.specs.Plain.{plain, setting};
ghost use Rattle.marked_laws.specs.Laws.{IsSound};
ghost use Rattle.role_monitor.specs.Judging.{KeepsOwn, MisfitsStay, RefusesOwn, SameMessages};
ghost use Rattle.net_core.specs.Deeds.{asks_scope};
ghost use Rattle.net_core.specs.Scopes.{Tells};
ghost use Rattle.rule_book.specs.KeptBooks.{book_of, IsBookOf};

use crate::own::judge_plain;
use crate::scenes::Scene;
use crate::scopes::judge_scope;
use crate::updates::Update;
use dioc_terms::{Act, Memory, give_up};
use dpoc_process::{PrepareFault, Runs};
use role_mailbox::Mail;

/// Judges an entry of the role, which shows this act. The answer is whether it is kept: then the
/// role has made its step. Else, and after want of memory, all is as it was.
pub(crate) fn judge<R: Runs>(
    scene: &Scene<'_>,
    updates: &mut Vec<Update>,
    mail: &mut Mail,
    state: &mut R,
    act: Act,
) -> Result<bool, Memory>
    requires sound { IsSound (plain scene.now.bundle.now) }
    requires book { IsBookOf (plain scene.now.bundle.now).rules scene.now.book.now }
    requires tells { Tells scene.now.bundle.now.cast (R.local state.old) act }
    requires misfits { MisfitsStay (R.local state.old) act }
    requires me { (R.local state.old).role ≡ scene.now.me.now }
    ensures kept { IfOk result (λ kept. OnTrue kept (KeepsOwn
        (setting (plain scene.now.bundle.now)) (R.local state.old) mail.old
        (book_of scene.now.book.now) updates.old.items scene.now.entry.now act
        (R.local state.new) mail.new updates.new.items)) }
    ensures refused { IfOk result (λ kept. OnFalse kept (RefusesOwn
        (setting (plain scene.now.bundle.now)) (R.local state.old) mail.old
        (book_of scene.now.book.now) updates.old.items scene.now.entry.now act)) }
    ensures same_local { IfOk result
        (λ kept. OnFalse kept (R.local state.new ≡ R.local state.old)) }
    ensures same_mail { IfOk result (λ kept. OnFalse kept (SameMessages mail.old mail.new)) }
    ensures same_updates { IfOk result
        (λ kept. OnFalse kept (updates.new.items ≡ updates.old.items)) }
    ensures local_stays { OnErr result (R.local state.new ≡ R.local state.old) }
    ensures mail_stays { OnErr result (SameMessages mail.old mail.new) }
    ensures updates_stay { OnErr result (updates.new.items ≡ updates.old.items) }
{
    process_steps::offers_are_steps();
    process_steps::steps_show_their_acts();
    if let Err(fault) = mail.reserve(1) {
        return give_up(act, fault);
    }
    match state.prepare_act(scene.alloc, &act) {
        Ok(shown) => {
            if is_scope(&act) {
                let kept = judge_scope(scene, updates, state, &act, shown);
                drop(act);
                return kept;
            }
            Ok(judge_plain(scene.me, state, mail, scene.entry, act, shown))
        }
        Err(PrepareFault::NoAct) => {
            drop(act);
            Ok(false)
        }
        Err(PrepareFault::Memory) => {
            drop(act);
            Err(Memory)
        }
    }
}

/// Whether the act begins a scope.
fn is_scope(act: &Act) -> bool
    ensures { result ≡ asks_scope act.now }
{
    matches!(act, Act::Scope(_))
}
