//! Each public call of a mailbox, with values that were worked out by hand.

use crate::names::{operation, role};
use dioc_terms::{Index, Key, NameFault, Payload, Tag, Value};
use role_mailbox::Mail;
use std::alloc::Global;
use std::test::Fail;

/// The key of a message from `a` to `b`, of the construct at that place of that update.
fn key(alloc: Global, epoch: u32, place: u32, tag: Tag) -> Result<Key, NameFault> {
    Ok(Key {
        from: role(alloc, b'a')?,
        to: role(alloc, b'b')?,
        index: Index { epoch, place },
        tag,
    })
}

fn sent(alloc: Global, epoch: u32, place: u32) -> Result<Key, NameFault> {
    key(alloc, epoch, place, operation(alloc)?)
}

/// Puts a number, unless a message of that key is pending. Whether it did.
fn put(mail: &mut Mail, key: Key, number: i64) -> Result<bool, Fail> {
    mail.reserve(1)?;
    if mail.holds(&key) {
        return Ok(false);
    }
    mail.put(key, Payload::Val(Value::Int(number)));
    Ok(true)
}

/// The number of the message of that key.
fn take(mail: &mut Mail, key: &Key) -> Option<i64> {
    let payload = mail.take(key);
    let number = match &payload {
        Some(Payload::Val(Value::Int(number))) => Some(*number),
        _ => None,
    };
    drop(payload);
    number
}

/// Epoch, place and number of messages that are put one after another, and whether each is put:
/// one of that key isn't pending.
const PUTS: [(u32, u32, i64, bool); 4] = [
    (0, 0, 10, true),
    (0, 1, 11, true),
    (1, 0, 12, true),
    (0, 1, 13, false),
];

/// Epoch and place of messages that are then taken, the number that each take finds, and how many
/// messages it leaves.
const TAKES: [(u32, u32, Option<i64>, usize); 5] = [
    (1, 1, None, 3),
    (0, 0, Some(10), 2),
    (0, 0, None, 2),
    (1, 0, Some(12), 1),
    (0, 1, Some(11), 0),
];

fn puts_as_told(alloc: Global, mail: &mut Mail) -> Result<bool, Fail> {
    for (epoch, place, number, is_new) in PUTS {
        let key = sent(alloc, epoch, place)?;
        if put(mail, key, number)? != is_new {
            return Ok(false);
        }
    }
    Ok(true)
}

fn takes_as_told(alloc: Global, mail: &mut Mail) -> Result<bool, Fail> {
    for (epoch, place, want, left) in TAKES {
        let found = take_sent(alloc, mail, epoch, place)?;
        if found != want || mail.len() != left {
            return Ok(false);
        }
    }
    Ok(true)
}

fn take_sent(alloc: Global, mail: &mut Mail, epoch: u32, place: u32) -> Result<Option<i64>, Fail> {
    let key = sent(alloc, epoch, place)?;
    Ok(take(mail, &key))
}

/// Whether the messages are put and taken as told.
fn is_told(alloc: Global, mail: &mut Mail) -> Result<bool, Fail> {
    Ok(
        mail.len() == 0
            && puts_as_told(alloc, mail)?
            && mail.len() == 3
            && takes_as_told(alloc, mail)?,
    )
}

#[test]
fn takes_a_message_once_by_its_key(rt: HostRuntime) -> Result<(), Fail> {
    let told = is_told(rt.alloc(), &mut Mail::new(rt.alloc()))?;
    assert!(rt; told);
    Ok(())
}

/// Whether a message of the tag `!end` is put.
fn puts_end(alloc: Global, mail: &mut Mail) -> Result<bool, Fail> {
    let end = key(alloc, 0, 0, Tag::End)?;
    put(mail, end, 1)
}

fn holds_tag(alloc: Global, mail: &Mail, tag: Tag) -> Result<bool, Fail> {
    let key = key(alloc, 0, 0, tag)?;
    let held = mail.holds(&key);
    drop(key);
    Ok(held)
}

fn take_tag(alloc: Global, mail: &mut Mail, tag: Tag) -> Result<Option<i64>, Fail> {
    let key = key(alloc, 0, 0, tag)?;
    let found = take(mail, &key);
    drop(key);
    Ok(found)
}

/// Whether there is a message of the tag `!end`, which has the number 1, and none of the tag
/// `!out`.
fn has_end_alone(alloc: Global, mail: &mut Mail) -> Result<bool, Fail> {
    Ok(
        !holds_tag(alloc, mail, Tag::Out)?
            && holds_tag(alloc, mail, Tag::End)?
            && take_tag(alloc, mail, Tag::Out)?.is_none()
            && take_tag(alloc, mail, Tag::End)? == Some(1),
    )
}

/// Whether a message is found by its tag alone.
fn finds_by_tag(alloc: Global, mail: &mut Mail) -> Result<bool, Fail> {
    Ok(puts_end(alloc, mail)? && has_end_alone(alloc, mail)?)
}

#[test]
fn tells_tags_apart(rt: HostRuntime) -> Result<(), Fail> {
    let told = finds_by_tag(rt.alloc(), &mut Mail::new(rt.alloc()))?;
    assert!(rt; told);
    Ok(())
}
