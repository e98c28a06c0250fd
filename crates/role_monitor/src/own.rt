//! Entries of the role itself that begin no scope.

ghost use Rattle.std.specs.Prelude.{◌≡◌, ◌<◌, true, false, Option, None, Some, IfNone, IfSome, IsSome};
ghost use Rattle.std.specs.Bool.{OnFalse, OnTrue};
ghost use Rattle.dioc_terms.specs.declared.entries.Act.TheVariants as acts;
ghost use Rattle.dioc_terms.specs.declared.names.Role.{Role as OneRole};
ghost use Rattle.dioc_terms.specs.declared.processes.Key.{Key as OneKey};
ghost use Rattle.dioc_terms.specs.Processes.{load};
ghost use Rattle.dpoc_process.specs.Acting.{Lead};
ghost use Rattle.dpoc_process.specs.Handed.{handed, given_like, StandsFor};
ghost use Rattle.dpoc_process.specs.RoleSteps.{IsShown};
ghost use Rattle.dpoc_process.specs.Shows.{message_shown};
ghost use Rattle.process_steps.specs.Laws.{given_fits, load_fits};
ghost use Rattle.role_mailbox.specs.Pending.{payload_at, room, ChangesOnly};
ghost use Rattle.role_monitor.specs.Judging.{FailsEntry, MakesEntry, MisfitsStay, PutBy, SameMessages, TakenBy, is_entry, is_fitting, mail_given};
ghost use Rattle.net_core.specs.Deeds.{asks_scope};

use dioc_terms::{Act, Entry, Key, Payload, Role, Tag};
use dpoc_process::{Got, Runs, Shown};
use role_mailbox::Mail;

/// Judges an entry of the role that shows this act, for which the role is made ready; there is room
/// for one message. The answer is whether the entry is kept: then the role has made its step. Else
/// all is as it was.
pub(crate) fn judge_plain<R: Runs>(
    me: &Role,
    state: &mut R,
    mail: &mut Mail,
    entry: &Entry,
    act: Act,
    shown: Shown,
) -> bool
    requires ready { R.is_ready state.old act }
    requires shown { IsShown (R.local state.old) act shown }
    requires plain { asks_scope act ≡ false }
    requires misfits { MisfitsStay (R.local state.old) act }
    requires me { (R.local state.old).role ≡ me.now }
    requires room { 0 < room mail.old }
    ensures kept { OnTrue result (MakesEntry (R.local state.old) act (mail_given act mail.old)
        entry.now mail.old (R.local state.new) mail.new) }
    ensures refused { OnFalse result
        (FailsEntry (R.local state.old) act (mail_given act mail.old) entry.now) }
    ensures same_local { OnFalse result (R.local state.new ≡ R.local state.old) }
    ensures same_mail { OnFalse result (SameMessages mail.old mail.new) }
{
    process_steps::offers_are_steps();
    process_steps::steps_show_their_acts();
    if !is_entry(&shown.entry, entry) {
        drop((act, shown));
        return false;
    }
    let Some((act, got)) = taken(mail, act) else {
        drop(shown);
        return false;
    };
    state.advance(&act, got);
    keep_own(me, mail, act, shown);
    true
}

/// Whether this is the entry.
fn is_entry(shown: &Option<Entry>, entry: &Entry) -> bool
    ensures { result ≡ is_entry shown.now entry.now }
{
    match shown {
        None => false,
        Some(one) => entry == one,
    }
}

/// What comes with an act that isn't a scope's, beside the act: of a take its message, which leaves
/// the mail. `None` where the message isn't there or doesn't fit its tag; then the messages are as
/// they were.
fn taken(mail: &mut Mail, act: Act) -> Option<(Act, Got)>
    requires plain { asks_scope act ≡ false }
    requires room { 0 < room mail.old }
    ensures act { IfSome result (λ came. came.0 ≡ act) }
    ensures like { IfSome result (λ came. given_like (handed came.1) ≡ mail_given act mail.old) }
    ensures stands { IfSome result (λ came. (me : OneRole) (lead : Option Lead)
        → StandsFor me lead (handed came.1) (mail_given act mail.old)) }
    ensures fits { IfSome result (λ came. given_fits act (mail_given act mail.old) ≡ true) }
    ensures taken { IfSome result (λ came. TakenBy act mail.old mail.new) }
    ensures room { IfSome result (λ came. 0 < room mail.new) }
    ensures misfit { IfNone result (given_fits act (mail_given act mail.old) ≡ false) }
    ensures same { IfNone result (SameMessages mail.old mail.new) }
{
    marked_laws::mail_is_a_map();
    match act {
        Act::Take(key) => match taken_message(mail, key) {
            Some((key, payload)) => Some((Act::Take(key), Got::Payload(payload))),
            None => None,
        },
        act => Some((act, Got::Nothing)),
    }
}

/// The message of this key, which leaves the mail, where it is there and fits its tag.
fn taken_message(mail: &mut Mail, key: Key) -> Option<(Key, Payload)>
    requires { 0 < room mail.old }
    ensures key { IfSome result (λ came. came.0 ≡ key) }
    ensures payload { IfSome result (λ came. payload_at key mail.old ≡ Some (load came.1)) }
    ensures fits { IfSome result (λ came. load_fits key.tag (load came.1) ≡ true) }
    ensures taken { IfSome result (λ came. ChangesOnly mail.old mail.new key None) }
    ensures room { IfSome result (λ came. 0 < room mail.new) }
    ensures misfit { IfNone result (is_fitting key (payload_at key mail.old) ≡ false) }
    ensures same { IfNone result (SameMessages mail.old mail.new) }
{
    let Some(payload) = mail.take(&key) else {
        drop(key);
        return None;
    };
    if fits(&key.tag, &payload) {
        return Some((key, payload));
    }
    mail.put(key, payload);
    None
}

/// What a message with this tag carries: a value, a flag, or the begin of a scope; of the ends of
/// parts nothing is asked.
fn fits(tag: &Tag, payload: &Payload) -> bool
    ensures { result ≡ load_fits tag.now (load payload.now) }
{
    match tag {
        Tag::Op(_) => matches!(payload, Payload::Val(_)),
        Tag::Choice | Tag::Go => matches!(payload, Payload::Flag(_)),
        Tag::Begin => matches!(payload, Payload::Keep | Payload::Part { .. }),
        Tag::Turn | Tag::End | Tag::Out => true,
    }
}

/// Keeps the message that an act shows to the role itself, unless one of its key is there already.
/// There is room for one.
fn keep_own(me: &Role, mail: &mut Mail, act: Act, shown: Shown)
    requires room { 0 < room mail.old }
    requires sends { (k : OneKey) → act ≡ acts.Put k → IsSome (message_shown shown) }
    ensures { PutBy me.now act (message_shown shown) mail.old mail.new }
{
    match act {
        Act::Put(key) => {
            let (_, payload) = shown.into_put();
            keep_put(me, mail, key, payload)
        }
        act => drop((act, shown)),
    }
}

fn keep_put(me: &Role, mail: &mut Mail, key: Key, payload: Payload)
    requires { 0 < room mail.old }
    ensures { PutBy me.now (acts.Put key) (Some (load payload)) mail.old mail.new }
{
    marked_laws::mail_is_a_map();
    if key.to != *me {
        drop((key, payload));
        return;
    }
    if mail.holds(&key) {
        drop((key, payload));
        return;
    }
    mail.put(key, payload);
}
