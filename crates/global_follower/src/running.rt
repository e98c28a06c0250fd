//! What is left of a choreography in the middle of a trace.

ghost use Rattle.std.specs.Prelude.{◌≡◌};
ghost use Rattle.dioc_terms.specs.Terms.{at_epoch, empty, term};
ghost use Rattle.global_follower.specs.KeptRunning.{is_skip, marked, part_term, running};
ghost use Rattle.global_steps.specs.Follow.{is_doer_due};
ghost use Rattle.global_steps.specs.Running.{started, ended, light, is_due};

use dioc_terms::{Choreo, Entry, Expr, Index, Name, Role, Value};

/// The marks of a text: its indices are of that epoch, its scopes at that level. Of the program's
/// own text both are 0.
#[derive(Clone, Copy)]
pub(crate) struct Marks {
    pub epoch: u32,
    pub level: u32,
}

impl Marks {
    /// The index of a construct of the text.
    pub(crate) fn of(self, index: Index) -> Index
        ensures { result ≡ at_epoch self.epoch index }
    {
        Index {
            epoch: self.epoch,
            place: index.place,
        }
    }

    /// A part of the text.
    pub(crate) fn part<'a>(self, choreo: &'a Choreo) -> Part<'a>
        ensures text { part_term result ≡ marked choreo.now self }
        ensures marks { result.marks ≡ self }
    {
        Part {
            choreo,
            marks: self,
        }
    }

    /// A part of the text that lies in a box.
    pub(crate) fn inside<'a>(self, part: &'a Box<Choreo>) -> Part<'a>
        ensures text { part_term result ≡ marked part.now.value self }
        ensures marks { result.marks ≡ self }
    {
        self.part(part)
    }
}

/// A part of a text with these marks.
#[derive(Clone, Copy)]
pub(crate) struct Part<'a> {
    pub choreo: &'a Choreo,
    pub marks: Marks,
}

/// What names the message of an interaction.
#[derive(Clone, Copy)]
pub(crate) struct Message<'a> {
    pub from: &'a Role,
    pub to: &'a Role,
    pub index: Index,
    pub op: &'a Name,
}

/// A message in flight: the variable that is to keep it, and its value.
#[derive(Drop)]
pub(crate) struct Flight<'a> {
    pub message: Message<'a>,
    pub var: &'a Name,
    pub value: Value,
}

/// A loop.
#[derive(Clone, Copy)]
pub(crate) struct Loop<'a> {
    pub index: Index,
    pub leader: &'a Role,
    pub guard: &'a Expr,
    pub body: Part<'a>,
}

/// What is left of a choreography. The texts lie in the bundle, and nothing of them is copied.
#[derive(Drop)]
pub(crate) enum Running<'a> {
    /// Nothing.
    Skip,
    /// A part that nobody has begun.
    Still(Part<'a>),
    /// The first, and then the second.
    Seq(Box<Running<'a>>, Box<Running<'a>>),
    /// Both, side by side.
    Par(Box<Running<'a>>, Box<Running<'a>>),
    /// A message in flight.
    Fly(Flight<'a>),
    /// A chosen scope, and what the body that was chosen has become.
    Bar(Part<'a>, Box<Running<'a>>),
    /// A loop, and what the body of this turn has become.
    Again(Loop<'a>, Box<Running<'a>>),
}

/// Whether it is the leaf that plays nothing.
pub(crate) fn is_skip(left: &Running<'_>) -> bool
    ensures { result ≡ is_skip left.now }
{
    match left {
        Running::Skip => true,
        _ => false,
    }
}

/// Whether nothing is left to play.
pub(crate) fn is_ended(left: &Running<'_>) -> bool
    ensures { result ≡ ended (running left.now) }
{
    match left {
        Running::Skip => true,
        Running::Still(part) => is_empty_part(part),
        Running::Seq(first, second) | Running::Par(first, second) => {
            is_ended(first) && is_ended(second)
        }
        Running::Bar(_, inside) => is_ended(inside),
        Running::Fly(_) | Running::Again(..) => false,
    }
}

/// Whether nothing is left but messages in flight.
pub(crate) fn is_light(left: &Running<'_>) -> bool
    ensures { result ≡ light (running left.now) }
{
    match left {
        Running::Skip | Running::Fly(_) => true,
        Running::Still(part) => is_empty_part(part),
        Running::Seq(first, second) | Running::Par(first, second) => {
            is_light(first) && is_light(second)
        }
        Running::Bar(_, inside) => is_ended(inside),
        Running::Again(..) => false,
    }
}

/// Whether the part has no construct: nothing of it is ever played.
#[tactic(auto, using(crate::proofs::Stills::ended_still, crate::proofs::Stills::light_still))]
pub(crate) fn is_empty_part(part: &Part<'_>) -> bool
    ensures ended { result ≡ ended (started (part_term part.now)) }
    ensures light { result ≡ light (started (part_term part.now)) }
{
    is_empty(part.choreo)
}

pub(crate) fn is_empty(choreo: &Choreo) -> bool
    ensures { result ≡ empty (term choreo.now) }
{
    match choreo {
        Choreo::Skip => true,
        Choreo::Seq(first, second) | Choreo::Par(first, second) => {
            is_empty(first) && is_empty(second)
        }
        _ => false,
    }
}

/// Whether a message in flight is for the role.
#[tactic(auto, using(crate::proofs::Stills::nobody_due))]
pub(crate) fn is_due(role: &Role, left: &Running<'_>) -> bool
    ensures { result ≡ is_due role.now (running left.now) }
{
    match left {
        Running::Skip | Running::Still(_) => false,
        Running::Seq(first, second) | Running::Par(first, second) => {
            is_due(role, first) || is_due(role, second)
        }
        Running::Fly(flight) => role == flight.message.to,
        Running::Bar(_, inside) | Running::Again(_, inside) => is_due(role, inside),
    }
}

/// Whether a message in flight is for the role of the entry.
pub(crate) fn is_doer_due(entry: &Entry, left: &Running<'_>) -> bool
    ensures { result ≡ is_doer_due entry.now (running left.now) }
{
    match entry.doer() {
        None => false,
        Some(role) => is_due(role, left),
    }
}
