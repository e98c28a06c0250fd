//! The processes of roles, and the messages between them.

ghost use Rattle.std.specs.Prelude.{◌≡◌, true, IfOk};
ghost use Rattle.dioc_terms.specs.Leaves.{is_follower, is_leaf_process};
ghost use Rattle.dioc_terms.specs.Parts.{has_two, first_of, second_of, has_body, body_of};
ghost use Rattle.dioc_terms.specs.Parts.{is_tell, messages_of, is_gather, keys_of};
ghost use Rattle.dioc_terms.specs.Parts.{has_more, behind_first, value_of, is_part, part_of};
ghost use Rattle.dioc_terms.specs.Processes.{process, letters, load, ScopeLead};

use crate::copies::{copy_both, new_box};
use crate::expressions::Expr;
use crate::faults::Memory;
use crate::lists::{Bindings, Keys, Roles};
use crate::names::{Index, Name, Role};
use crate::values::Value;
use std::alloc::Global;
use std::hash::{Hash, Hasher};

/// What a message is for: an operation of the choreography, or one of the six auxiliary tags.
#[derive(Hash)]
pub enum Tag {
    /// An operation of the choreography.
    Op(Name),
    /// The leader tells which branch it picked.
    Choice,
    /// The leader tells whether there is another turn.
    Go,
    /// A role tells that its turn has ended.
    Turn,
    /// The leader tells what a scope does.
    Begin,
    /// A role tells that its part of a scope has ended.
    End,
    /// The leader tells that the scope has ended.
    Out,
}

impl Drop for Tag {
    fn drop(self) {
        match self {
            Tag::Op(_) => {}
            Tag::Choice => {}
            Tag::Go => {}
            Tag::Turn => {}
            Tag::Begin => {}
            Tag::End => {}
            Tag::Out => {}
        }
    }
}

impl Tag {
    /// A copy, the same tag.
    pub fn copy(&self, alloc: Global) -> Result<Tag, Memory>
        ensures { IfOk result (λ copy. copy ≡ self.now) }
    {
        match self {
            Tag::Op(name) => Ok(Tag::Op(name.copy(alloc)?)),
            Tag::Choice => Ok(Tag::Choice),
            Tag::Go => Ok(Tag::Go),
            Tag::Turn => Ok(Tag::Turn),
            Tag::Begin => Ok(Tag::Begin),
            Tag::End => Ok(Tag::End),
            Tag::Out => Ok(Tag::Out),
        }
    }
}

impl PartialEq for Tag {
    ghost use Rattle.dioc_terms.specs.Equality.{tag_eq};
    ghost use Rattle.dioc_terms.specs.EqualityLemmas.{equivalence_from_Decides, tag_eq-decides};
    ghost use Rattle.std.specs.Cmp.{partial_equiv_from_equiv};

    ghost eq = { tag_eq };

    ghost laws = { partial_equiv_from_equiv (equivalence_from_Decides tag_eq tag_eq-decides) };

    fn eq(&self, other: &Tag) -> bool {
        match (self, other) {
            (Tag::Op(mine), Tag::Op(theirs)) => mine == theirs,
            (Tag::Choice, Tag::Choice)
            | (Tag::Go, Tag::Go)
            | (Tag::Turn, Tag::Turn)
            | (Tag::Begin, Tag::Begin)
            | (Tag::End, Tag::End)
            | (Tag::Out, Tag::Out) => true,
            _ => false,
        }
    }
}

impl Eq for Tag {
    ghost use Rattle.dioc_terms.specs.Equality.{tag_eq};
    ghost use Rattle.dioc_terms.specs.EqualityLemmas.{equivalence_from_Decides, tag_eq-decides};

    ghost laws = { equivalence_from_Decides tag_eq tag_eq-decides };
}

#[derived]
impl Hash for Tag {
    ghost use Rattle.dioc_terms.specs.Equality.{tag_eq};
    ghost use Rattle.dioc_terms.specs.EqualityLemmas.{fed_alike, tag_eq-decides};

    ghost respects_eq = { fed_alike tag_eq tag_eq-decides _ };
}

/// The key of a message. A receive takes the message of exactly its key.
pub struct Key {
    /// The sender.
    pub from: Role,
    /// The receiver.
    pub to: Role,
    /// The construct that sends.
    pub index: Index,
    /// What the message is for.
    pub tag: Tag,
}

impl Drop for Key {
    fn drop(self) {
        let Key {
            from: _,
            to: _,
            index: _,
            tag: _,
        } = self;
    }
}

impl Key {
    /// A copy, the same key.
    #[inline(always)]
    pub fn copy(&self, alloc: Global) -> Result<Key, Memory>
        ensures { IfOk result (λ copy. copy ≡ self.now) }
    {
        let (from, to) = copy_both(alloc, &self.from, &self.to)?;
        Ok(Key {
            from,
            to,
            index: self.index,
            tag: self.tag.copy(alloc)?,
        })
    }
}

impl PartialEq for Key {
    ghost use Rattle.dioc_terms.specs.Equality.{key_eq};
    ghost use Rattle.dioc_terms.specs.EqualityLemmas.{equivalence_from_Decides, key_eq-decides};
    ghost use Rattle.std.specs.Cmp.{partial_equiv_from_equiv};

    ghost eq = { key_eq };

    ghost laws = { partial_equiv_from_equiv (equivalence_from_Decides key_eq key_eq-decides) };

    fn eq(&self, other: &Key) -> bool {
        self.index == other.index
            && self.tag == other.tag
            && self.from == other.from
            && self.to == other.to
    }
}

impl Eq for Key {
    ghost use Rattle.dioc_terms.specs.Equality.{key_eq};
    ghost use Rattle.dioc_terms.specs.EqualityLemmas.{equivalence_from_Decides, key_eq-decides};

    ghost laws = { equivalence_from_Decides key_eq key_eq-decides };
}

// Messages that are pending at once differ mostly by their constructs, so no name is looked at.
impl Hash for Key {
    ghost use Rattle.std.specs.Prelude.{◌++◌};
    ghost use Rattle.std.specs.Hash as fed;
    ghost use Rattle.dioc_terms.specs.Equality.{key_eq};
    ghost use Rattle.dioc_terms.specs.EqualityLemmas.{fed_alike, key_eq-decides};

    ghost hash_input = { λ key. fed.u32 key.index.epoch ++ fed.u32 key.index.place };

    ghost respects_eq = { fed_alike key_eq key_eq-decides
        (λ key. fed.u32 key.index.epoch ++ fed.u32 key.index.place) };

    fn hash<H: Hasher>(&self, state: &mut H) {
        self.index.epoch.hash(state);
        self.index.place.hash(state);
    }
}

/// What the leader of a scope shows the book: the scope without its body.
pub struct ScopeHead {
    /// The index of the scope.
    pub index: Index,
    /// Its leader.
    pub leader: Role,
    /// Its roles, in the order of the cast.
    pub roles: Roles,
    /// Its properties.
    pub props: Bindings,
    /// How many updates it stands inside.
    pub level: u32,
}

impl Drop for ScopeHead {
    fn drop(self) {
        let ScopeHead {
            index: _,
            leader: _,
            roles: _,
            props: _,
            level: _,
        } = self;
    }
}

/// What a message carries.
#[cycle(process)]
pub enum Payload {
    /// The value of an operation.
    Val(Value),
    /// Which branch, or whether there is another turn.
    Flag(bool),
    /// The scope keeps its body.
    Keep,
    /// The receiver's part of the update of this number.
    Part { epoch: u32, proc: Proc },
    /// Nothing but its tag.
    Done,
}

impl Drop for Payload {
    #[cycle(process)]
    fn drop(self) {
        match self {
            Payload::Val(_) => {}
            Payload::Flag(_) => {}
            Payload::Keep => {}
            Payload::Part { epoch: _, proc: _ } => {}
            Payload::Done => {}
        }
    }
}

/// Messages that are still to be sent, in their order.
#[cycle(process)]
pub enum Messages {
    /// No message.
    Nothing,
    /// A message, and those after it.
    More(Key, Box<Payload>, Box<Messages>),
}

impl Drop for Messages {
    #[cycle(process)]
    fn drop(self) {
        match self {
            Messages::Nothing => {}
            Messages::More(_, _, _) => {}
        }
    }
}

/// The process of one role.
#[cycle(process)]
pub enum Proc {
    /// Nothing.
    Skip,
    /// Sends the value of `expr`.
    Send {
        index: Index,
        op: Name,
        to: Role,
        expr: Expr,
    },
    /// Takes a value and keeps it in `var`.
    Recv {
        index: Index,
        op: Name,
        from: Role,
        var: Name,
    },
    /// Sets `var` to the value of `expr`.
    Assign {
        index: Index,
        var: Name,
        expr: Expr,
    },
    /// Sets `var` to the next input.
    Read {
        index: Index,
        var: Name,
    },
    /// The first, and then the second.
    Seq(Box<Proc>, Box<Proc>),
    /// Both, side by side.
    Par(Box<Proc>, Box<Proc>),
    /// Picks a branch, and tells the others.
    IfLead {
        index: Index,
        guard: Expr,
        others: Roles,
        yes: Box<Proc>,
        no: Box<Proc>,
    },
    /// Takes the branch that the leader picked.
    IfFollow {
        index: Index,
        leader: Role,
        yes: Box<Proc>,
        no: Box<Proc>,
    },
    /// Picks before each turn, and tells the others.
    WhileLead {
        index: Index,
        guard: Expr,
        others: Roles,
        body: Box<Proc>,
    },
    /// Takes before each turn whether there is one.
    WhileFollow {
        index: Index,
        leader: Role,
        body: Box<Proc>,
    },
    /// Asks the book what the scope does, and tells the others.
    ScopeLead {
        head: ScopeHead,
        others: Roles,
        body: Box<Proc>,
    },
    /// Takes from the leader what the scope does.
    ScopeFollow {
        index: Index,
        leader: Role,
        body: Box<Proc>,
    },
    /// Sends these messages, one after another.
    Tell {
        messages: Messages,
    },
    /// Takes the messages of these keys, one after another.
    Gather {
        keys: Keys,
    },
}

impl Drop for Proc {
    #[cycle(process)]
    fn drop(self) {
        match self {
            Proc::Seq(_, _) => {}
            Proc::Par(_, _) => {}
            Proc::IfLead {
                index: _,
                guard: _,
                others: _,
                yes: _,
                no: _,
            } => {}
            Proc::WhileLead {
                index: _,
                guard: _,
                others: _,
                body: _,
            } => {}
            Proc::ScopeLead {
                head: _,
                others: _,
                body: _,
            } => {}
            Proc::IfFollow { .. } | Proc::WhileFollow { .. } | Proc::ScopeFollow { .. } => {
                self.drop_follower();
            }
            Proc::Tell { messages: _ } => {}
            leaf => leaf.drop_leaf(),
        }
    }
}

impl Proc {
    /// Lets go of a construct that another role leads.
    #[cycle(process)]
    fn drop_follower(self)
        requires { is_follower (process self) ≡ true }
    {
        match self {
            Proc::IfFollow {
                index: _,
                leader: _,
                yes: _,
                no: _,
            } => {}
            Proc::WhileFollow {
                index: _,
                leader: _,
                body: _,
            } => {}
            Proc::ScopeFollow {
                index: _,
                leader: _,
                body: _,
            } => {}
            _ => unreachable!(),
        }
    }

    /// Lets go of a process with neither a process nor messages inside.
    fn drop_leaf(self)
        requires { is_leaf_process (process self) ≡ true }
    {
        match self {
            Proc::Skip => {}
            Proc::Send {
                index: _,
                op: _,
                to: _,
                expr: _,
            } => {}
            Proc::Recv {
                index: _,
                op: _,
                from: _,
                var: _,
            } => {}
            Proc::Assign {
                index: _,
                var: _,
                expr: _,
            } => {}
            Proc::Read { index: _, var: _ } => {}
            Proc::Gather { keys: _ } => {}
            _ => unreachable!(),
        }
    }
}

/// The parts of an update: the leader's own, and the messages with those of the others.
#[derive(Drop)]
pub struct Parts {
    /// The part of the leader.
    pub own: Proc,
    /// The messages to the others, each with its part.
    pub tell: Messages,
}

impl ScopeHead {
    /// The leader of the scope.
    pub fn into_leader(self) -> Role
        ensures { result ≡ self.leader }
    {
        let ScopeHead {
            index: _,
            leader,
            roles: _,
            props: _,
            level: _,
        } = self;
        leader
    }

    /// A copy, the same head.
    pub fn copy(&self, alloc: Global) -> Result<ScopeHead, Memory>
        ensures { IfOk result (λ copy. copy ≡ self.now) }
    {
        Ok(ScopeHead {
            index: self.index,
            leader: self.leader.copy(alloc)?,
            roles: self.roles.copy(alloc)?,
            props: self.props.copy(alloc)?,
            level: self.level,
        })
    }
}

impl Payload {
    /// The value of an operation, if it is one.
    pub fn into_value(self) -> Option<Value>
        ensures { result ≡ value_of (load self) }
    {
        match self {
            Payload::Val(value) => Some(value),
            Payload::Flag(_) => None,
            Payload::Keep => None,
            Payload::Part { epoch: _, proc: _ } => None,
            Payload::Done => None,
        }
    }

    /// The process of a part of an update.
    pub fn into_part(self) -> Proc
        requires { is_part (load self) ≡ true }
        ensures { process result ≡ part_of (load self) }
    {
        match self {
            Payload::Part { epoch: _, proc } => proc,
            _ => unreachable!(),
        }
    }

    /// A copy, the same payload.
    #[cycle(copy_process)]
    pub fn copy(&self, alloc: Global) -> Result<Payload, Memory>
        ensures { IfOk result (λ copy. load copy ≡ load self.now) }
    {
        match self {
            Payload::Val(value) => Ok(Payload::Val(value.copy(alloc)?)),
            Payload::Flag(flag) => Ok(Payload::Flag(*flag)),
            Payload::Keep => Ok(Payload::Keep),
            Payload::Part { epoch, proc } => Ok(Payload::Part {
                epoch: *epoch,
                proc: proc.copy(alloc)?,
            }),
            Payload::Done => Ok(Payload::Done),
        }
    }

    /// A copy in a box.
    #[cycle(copy_process)]
    fn to_box(&self, alloc: Global) -> Result<Box<Payload>, Memory>
        ensures { IfOk result (λ copy. load copy.value ≡ load self.now) }
    {
        new_box(alloc, self.copy(alloc)?)
    }
}

impl Messages {
    /// The messages behind the first.
    pub fn into_rest(self) -> Box<Messages>
        requires { has_more (letters self) ≡ true }
        ensures { letters result.value ≡ behind_first (letters self) }
    {
        match self {
            Messages::More(_, _, rest) => rest,
            Messages::Nothing => unreachable!(),
        }
    }

    /// A copy, the same messages in the same order.
    #[cycle(copy_process)]
    pub fn copy(&self, alloc: Global) -> Result<Messages, Memory>
        ensures { IfOk result (λ copy. letters copy ≡ letters self.now) }
    {
        match self {
            Messages::Nothing => Ok(Messages::Nothing),
            Messages::More(key, payload, rest) => {
                let payload = payload.to_box(alloc)?;
                let rest = rest.to_box(alloc)?;
                Ok(Messages::More(key.copy(alloc)?, payload, rest))
            }
        }
    }

    /// A copy in a box.
    #[cycle(copy_process)]
    fn to_box(&self, alloc: Global) -> Result<Box<Messages>, Memory>
        ensures { IfOk result (λ copy. letters copy.value ≡ letters self.now) }
    {
        new_box(alloc, self.copy(alloc)?)
    }
}

impl Proc {
    /// Both parts of a sequence or of a parallel, or both branches of a choice.
    pub fn into_two(self) -> (Box<Proc>, Box<Proc>)
        requires { has_two (process self) ≡ true }
        ensures first { process result.0.value ≡ first_of (process self) }
        ensures second { process result.1.value ≡ second_of (process self) }
    {
        match self {
            Proc::Seq(first, second) => (first, second),
            Proc::Par(left, right) => (left, right),
            Proc::IfLead {
                index: _,
                guard: _,
                others: _,
                yes,
                no,
            } => (yes, no),
            Proc::IfFollow {
                index: _,
                leader: _,
                yes,
                no,
            } => (yes, no),
            _ => unreachable!(),
        }
    }

    /// The body of a loop or of a scope.
    pub fn into_body(self) -> Box<Proc>
        requires { has_body (process self) ≡ true }
        ensures { process result.value ≡ body_of (process self) }
    {
        match self {
            Proc::WhileLead {
                index: _,
                guard: _,
                others: _,
                body,
            } => body,
            Proc::WhileFollow {
                index: _,
                leader: _,
                body,
            } => body,
            Proc::ScopeLead {
                head: _,
                others: _,
                body,
            } => body,
            Proc::ScopeFollow {
                index: _,
                leader: _,
                body,
            } => body,
            _ => unreachable!(),
        }
    }

    /// The messages that a process is still to send, where that is all that it does.
    pub fn into_messages(self) -> Messages
        requires { is_tell (process self) ≡ true }
        ensures { letters result ≡ messages_of (process self) }
    {
        match self {
            Proc::Tell { messages } => messages,
            _ => unreachable!(),
        }
    }

    /// The keys whose messages a process is still to take, where that is all that it does.
    pub fn into_keys(self) -> Keys
        requires { is_gather (process self) ≡ true }
        ensures { result ≡ keys_of (process self) }
    {
        match self {
            Proc::Gather { keys } => keys,
            _ => unreachable!(),
        }
    }

    /// A copy, the same process.
    #[cycle(copy_process)]
    pub fn copy(&self, alloc: Global) -> Result<Proc, Memory>
        ensures { IfOk result (λ copy. process copy ≡ process self.now) }
    {
        match self {
            Proc::Seq(left, right) => Ok(Proc::Seq(left.to_box(alloc)?, right.to_box(alloc)?)),
            Proc::Par(left, right) => Ok(Proc::Par(left.to_box(alloc)?, right.to_box(alloc)?)),
            Proc::IfLead {
                index,
                guard,
                others,
                yes,
                no,
            } => {
                let yes = yes.to_box(alloc)?;
                let no = no.to_box(alloc)?;
                Proc::lead_choice(alloc, *index, guard, others.copy(alloc)?, yes, no)
            }
            Proc::WhileLead {
                index,
                guard,
                others,
                body,
            } => {
                let body = body.to_box(alloc)?;
                Proc::lead_loop(alloc, *index, guard, others.copy(alloc)?, body)
            },
            Proc::ScopeLead { head, others, body } => copy_of_scope_lead(
                alloc,
                head,
                others,
                body.to_box(alloc)?,
            ),
            Proc::Tell { messages } => Ok(Proc::Tell {
                messages: messages.copy(alloc)?,
            }),
            Proc::IfFollow { .. } | Proc::WhileFollow { .. } | Proc::ScopeFollow { .. } =>
                copy_of_follower(alloc, self),
            leaf => copy_of_leaf(alloc, leaf),
        }
    }

    /// A copy in a box.
    #[cycle(copy_process)]
    fn to_box(&self, alloc: Global) -> Result<Box<Proc>, Memory>
        ensures { IfOk result (λ copy. process copy.value ≡ process self.now) }
    {
        new_box(alloc, self.copy(alloc)?)
    }
}

/// A copy of a construct that another role leads.
#[cycle(copy_process)]
fn copy_of_follower(alloc: Global, follower: &Proc) -> Result<Proc, Memory>
    requires { is_follower (process follower.now) ≡ true }
    ensures { IfOk result (λ copy. process copy ≡ process follower.now) }
{
    match follower {
        Proc::IfFollow {
            index,
            leader,
            yes,
            no,
        } => {
            let yes = yes.to_box(alloc)?;
            let no = no.to_box(alloc)?;
            Proc::follow_choice(alloc, *index, leader, yes, no)
        }
        Proc::WhileFollow {
            index,
            leader,
            body,
        } => Proc::follow_loop(alloc, *index, leader, body.to_box(alloc)?),
        Proc::ScopeFollow {
            index,
            leader,
            body,
        } => Proc::follow_scope(alloc, *index, leader, body.to_box(alloc)?),
        _ => unreachable!(),
    }
}

/// A copy of a process with neither a process nor messages inside.
fn copy_of_leaf(alloc: Global, leaf: &Proc) -> Result<Proc, Memory>
    requires { is_leaf_process (process leaf.now) ≡ true }
    ensures { IfOk result (λ copy. process copy ≡ process leaf.now) }
{
    match leaf {
        Proc::Skip => Ok(Proc::Skip),
        Proc::Send {
            index,
            op,
            to,
            expr,
        } => Proc::send(alloc, *index, op, to, expr),
        Proc::Recv {
            index,
            op,
            from,
            var,
        } => Proc::receive(alloc, *index, op, from, var),
        Proc::Assign { index, var, expr } => Proc::assign(alloc, *index, var, expr),
        Proc::Read { index, var } => Proc::read(alloc, *index, var),
        Proc::Gather { keys } => Ok(Proc::Gather {
            keys: keys.copy(alloc)?,
        }),
        _ => unreachable!(),
    }
}

/// A copy of what a leader of a scope does, with this body.
fn copy_of_scope_lead(
    alloc: Global,
    head: &ScopeHead,
    others: &Roles,
    body: Box<Proc>,
) -> Result<Proc, Memory>
    ensures { IfOk result (λ copy. process copy ≡ ScopeLead head.now others.now
        (process body.value)) }
{
    Ok(Proc::ScopeLead {
        head: head.copy(alloc)?,
        others: others.copy(alloc)?,
        body,
    })
}
