//! Names, texts, roles and indices.

ghost use Rattle.std.specs.Prelude.{◌≡◌, ◌≤◌, ◌+◌, ◌↔◌, true, false, length, take, IsOk, IfOk, IsErrOf};
ghost use Rattle.std.specs.List.{list_all};
ghost use Rattle.std.specs.Int.{from_le_bytes, w64};
ghost use Rattle.std.specs.Str.{bytes_eq};
ghost use Rattle.dioc_terms.specs.Equality.{member};
ghost use Rattle.dioc_terms.specs.Names.{is_letter, is_word, is_printable, is_name, is_text};
ghost use Rattle.dioc_terms.specs.Kept.{eight, kept_items, IsKept};

use crate::copies::new_box;
use crate::faults::{Memory, NameFault, TextFault};
use limits::{MOST_NAME_BYTES, MOST_TEXT_BYTES};
use std::alloc::Global;
use std::hash::{Hash, Hasher};
use std::marker::Model;

/// So many bytes a name keeps in place; a longer one takes memory.
pub const BYTES_IN_PLACE: usize = 14;

const _: () = prove!(size_of::<Name>() == 16);

/// A name: a letter, then letters, digits and `_`, 1 to 64 bytes in all. Contracts see its bytes.
/// One of at most `BYTES_IN_PLACE` bytes takes no memory.
#[derive(Debug)]
pub struct Name {
    bytes: Kept,
}

/// The bytes of a name.
#[derive(Debug, Drop)]
pub(crate) enum Kept {
    /// So many of these.
    Short(u8, [u8; BYTES_IN_PLACE]),
    /// More than can be in place.
    Long(Box<Vec<u8>>),
}

impl Drop for Name {
    fn drop(self) {
        let Name { bytes: _ } = self;
    }
}

impl Model for Name {
    ghost use Rattle.std.specs.Prelude.{List, ℕ};

    ghost Value = { List ℕ };

    ghost use Rattle.dioc_terms.specs.Names.{IsName};
    ghost use Rattle.dioc_terms.specs.Kept.{kept_items, IsKept};

    ghost view = { λ name. kept_items name.bytes };

    ghost invariant = { λ name. IsName (kept_items name.bytes) × IsKept name.bytes };
}

impl Name {
    /// Reads a name.
    ///
    /// The error is `NotAName` exactly where the bytes aren't a letter followed by at most 63
    /// letters, digits or `_`, and `Memory` where memory runs out.
    pub fn read(alloc: Global, bytes: &[u8]) -> Result<Name, NameFault>
        ensures ok { IfOk result (λ name. name ≡ bytes.now) }
        ensures not_a_name { IsErrOf result NameFault.NotAName ↔ (is_name bytes.now ≡ false) }
    {
        if !is_name(bytes) {
            return Err(NameFault::NotAName);
        }
        Ok(Name::of(alloc, bytes)?)
    }

    /// The name of these bytes, which the caller knows to be one. The error says that memory ran
    /// out.
    pub fn of(alloc: Global, bytes: &[u8]) -> Result<Name, Memory>
        requires { is_name bytes.now ≡ true }
        ensures { IfOk result (λ name. name ≡ bytes.now) }
    {
        let bytes = Kept::new(alloc, bytes)?;
        Ok(Name { bytes })
    }

    /// The bytes that were read.
    pub fn bytes(&self) -> &[u8]
        ensures value { result.now ≡ self.now }
        ensures valid { is_name self.now ≡ true }
    {
        self.bytes.as_slice()
    }

    /// A copy, the same name.
    #[inline(always)]
    pub fn copy(&self, alloc: Global) -> Result<Name, Memory>
        ensures { IfOk result (λ copy. copy ≡ self.now) }
    {
        let bytes = self.bytes.copy(alloc)?;
        Ok(Name { bytes })
    }
}

impl PartialEq for Name {
    ghost use Rattle.dioc_terms.specs.Equality.{name_eq};
    ghost use Rattle.dioc_terms.specs.EqualityLemmas.{equivalence_from_Decides, name_eq-decides};
    ghost use Rattle.std.specs.Cmp.{partial_equiv_from_equiv};

    ghost eq = { name_eq };

    ghost laws = { partial_equiv_from_equiv (equivalence_from_Decides name_eq name_eq-decides) };

    fn eq(&self, other: &Name) -> bool {
        self.bytes.is_same(&other.bytes)
    }
}

impl Eq for Name {
    ghost use Rattle.dioc_terms.specs.Equality.{name_eq};
    ghost use Rattle.dioc_terms.specs.EqualityLemmas.{equivalence_from_Decides, name_eq-decides};

    ghost laws = { equivalence_from_Decides name_eq name_eq-decides };
}

impl Hash for Name {
    ghost use Rattle.std.specs.Hash as fed;
    ghost use Rattle.dioc_terms.specs.Equality.{name_eq};
    ghost use Rattle.dioc_terms.specs.EqualityLemmas.{fed_alike, name_eq-decides};

    ghost hash_input = { λ name. fed.slice fed.u8 name };

    ghost respects_eq = { fed_alike name_eq name_eq-decides (λ name. fed.slice fed.u8 name) };

    fn hash<H: Hasher>(&self, state: &mut H) {
        self.bytes().hash(state);
    }
}

/// A text: at most 1,024 bytes, each from 0x20 to 0x7E. Contracts see its bytes.
pub struct Text {
    bytes: Box<Vec<u8>>,
}

const _: () = prove!(size_of::<Text>() == 8);

impl Drop for Text {
    fn drop(self) {
        let Text { bytes: _ } = self;
    }
}

impl Model for Text {
    ghost use Rattle.std.specs.Prelude.{List, ℕ};

    ghost Value = { List ℕ };

    ghost use Rattle.dioc_terms.specs.Names.{IsText};

    ghost view = { λ text. text.bytes.value.items };

    ghost invariant = { λ text. IsText text.bytes.value.items };
}

impl Text {
    /// Reads a text.
    ///
    /// The error is `NotText` exactly where there are more than 1,024 bytes or one is outside 0x20
    /// to 0x7E, and `Memory` where memory runs out.
    pub fn read(alloc: Global, bytes: &[u8]) -> Result<Text, TextFault>
        ensures ok { IfOk result (λ text. text ≡ bytes.now) }
        ensures not_text { IsErrOf result TextFault.NotText ↔ (is_text bytes.now ≡ false) }
    {
        if !is_text(bytes) {
            return Err(TextFault::NotText);
        }
        let bytes = boxed_bytes(alloc, bytes)?;
        Ok(Text { bytes })
    }

    /// The bytes that were read.
    pub fn bytes(&self) -> &[u8]
        ensures value { result.now ≡ self.now }
        ensures valid { is_text self.now ≡ true }
    {
        let _bytes = &self.bytes;
        self.bytes.as_slice()
    }

    /// A copy, the same text.
    pub fn copy(&self, alloc: Global) -> Result<Text, Memory>
        ensures { IfOk result (λ copy. copy ≡ self.now) }
    {
        let bytes = boxed_bytes(alloc, self.bytes.as_slice())?;
        Ok(Text { bytes })
    }
}

impl Text {
    ghost use Rattle.dioc_terms.specs.Values.{joined_text, text_lt};
    ghost use Rattle.dioc_terms.specs.BorrowedValues.{text_or_nil};

    /// The text with another one after it, `None` where that has more than 1,024 bytes.
    pub(crate) fn join(&self, alloc: Global, other: &Text) -> Result<Option<Text>, Memory>
        ensures { IfOk result (λ text. text_or_nil text ≡ joined_text self.now other.now) }
    {
        let length = self.bytes.len() + other.bytes.len();
        if length > MOST_TEXT_BYTES {
            return Ok(None);
        }
        let mut bytes = Vec::with_capacity(alloc, length)?;
        bytes.extend_from_slice(self.bytes.as_slice())?;
        bytes.extend_from_slice(other.bytes.as_slice())?;
        let bytes = new_box(alloc, bytes)?;
        Ok(Some(Text { bytes }))
    }

    /// Whether the text comes before another one, by their bytes.
    pub fn is_before(&self, other: &Text) -> bool
        ensures { result ≡ text_lt self.now other.now }
    {
        self.bytes.as_slice().cmp(other.bytes.as_slice()).is_lt()
    }
}

impl PartialEq for Text {
    ghost use Rattle.std.specs.Str.{bytes_eq};
    ghost use Rattle.dioc_terms.specs.EqualityLemmas.{equivalence_from_Decides, name_eq-decides};
    ghost use Rattle.std.specs.Cmp.{partial_equiv_from_equiv};

    ghost eq = { bytes_eq };

    ghost laws = { partial_equiv_from_equiv (equivalence_from_Decides bytes_eq name_eq-decides) };

    fn eq(&self, other: &Text) -> bool {
        self.bytes.as_slice() == other.bytes.as_slice()
    }
}

impl Eq for Text {
    ghost use Rattle.std.specs.Str.{bytes_eq};
    ghost use Rattle.dioc_terms.specs.EqualityLemmas.{equivalence_from_Decides, name_eq-decides};

    ghost laws = { equivalence_from_Decides bytes_eq name_eq-decides };
}

/// A role of a choreography, known by its name.
#[derive(Debug, Hash)]
pub struct Role(pub Name);

impl Drop for Role {
    fn drop(self) {
        let Role(_) = self;
    }
}

impl Role {
    /// A copy, the same role.
    pub fn copy(&self, alloc: Global) -> Result<Role, Memory>
        ensures { IfOk result (λ copy. copy ≡ self.now) }
    {
        Ok(Role(self.0.copy(alloc)?))
    }
}

impl PartialEq for Role {
    ghost use Rattle.dioc_terms.specs.Equality.{role_eq};
    ghost use Rattle.dioc_terms.specs.EqualityLemmas.{equivalence_from_Decides, role_eq-decides};
    ghost use Rattle.std.specs.Cmp.{partial_equiv_from_equiv};

    ghost eq = { role_eq };

    ghost laws = { partial_equiv_from_equiv (equivalence_from_Decides role_eq role_eq-decides) };

    fn eq(&self, other: &Role) -> bool {
        self.0 == other.0
    }
}

impl Eq for Role {
    ghost use Rattle.dioc_terms.specs.Equality.{role_eq};
    ghost use Rattle.dioc_terms.specs.EqualityLemmas.{equivalence_from_Decides, role_eq-decides};

    ghost laws = { equivalence_from_Decides role_eq role_eq-decides };
}

/// Whether the role is one of these.
pub fn is_among(role: &Role, roles: &[Role]) -> bool
    ensures { result ≡ member role.now roles.now }
{
    roles.iter().any(|other| role == other)
}

/// The index of a construct: the number of the update that it stands in, 0 in the program's own
/// text, and its place in that text, the number of indexed constructs that begin before it.
#[derive(Clone, Copy, Debug, PartialEq, Eq, Hash)]
pub struct Index {
    /// The number of the update, 0 in the program's own text.
    pub epoch: u32,
    /// The place in that text.
    pub place: u32,
}

impl Kept {
    /// These bytes, in place where they are at most `BYTES_IN_PLACE`.
    fn new(alloc: Global, bytes: &[u8]) -> Result<Kept, Memory>
        ensures same { IfOk result (λ kept. kept_items kept ≡ bytes.now) }
        ensures kept { IfOk result (λ kept. IsKept kept) }
        ensures short { length bytes.now ≤ BYTES_IN_PLACE → IsOk result }
    {
        if bytes.len() <= BYTES_IN_PLACE {
            return Ok(short_of(bytes));
        }
        Ok(Kept::Long(boxed_bytes(alloc, bytes)?))
    }

    /// The bytes.
    fn as_slice(&self) -> &[u8]
        requires { IsKept self.now }
        ensures { result.now ≡ kept_items self.now }
    {
        match self {
            Kept::Short(count, bytes) => first_bytes(bytes, *count),
            Kept::Long(bytes) => bytes.as_slice(),
        }
    }

    /// Whether both are the same bytes.
    fn is_same(&self, other: &Kept) -> bool
        requires mine { IsKept self.now }
        requires theirs { IsKept other.now }
        ensures { result ≡ bytes_eq (kept_items self.now) (kept_items other.now) }
    {
        match (self, other) {
            (Kept::Short(count, bytes), Kept::Short(other_count, other_bytes)) => {
                are_same_in_place(*count, bytes, *other_count, other_bytes)
            }
            _ => self.as_slice() == other.as_slice(),
        }
    }

    /// A copy, the same bytes. Most names are short, and those are copied where the call stands.
    #[inline(always)]
    fn copy(&self, alloc: Global) -> Result<Kept, Memory>
        requires { IsKept self.now }
        ensures same { IfOk result (λ copy. kept_items copy ≡ kept_items self.now) }
        ensures kept { IfOk result (λ copy. IsKept copy) }
    {
        match self {
            Kept::Short(count, bytes) => Ok(Kept::Short(*count, *bytes)),
            Kept::Long(bytes) => copy_of_long(alloc, bytes.as_slice()),
        }
    }
}

/// A copy of bytes that stand in a box, in a box of its own.
#[inline(never)]
fn copy_of_long(alloc: Global, bytes: &[u8]) -> Result<Kept, Memory>
    ensures same { IfOk result (λ copy. kept_items copy ≡ bytes.now) }
    ensures kept { IfOk result (λ copy. IsKept copy) }
{
    Ok(Kept::Long(boxed_bytes(alloc, bytes)?))
}

/// The first of the bytes in place.
fn first_bytes(bytes: &[u8; BYTES_IN_PLACE], count: u8) -> &[u8]
    requires { count ≤ BYTES_IN_PLACE }
    ensures { result.now ≡ take count bytes.now }
{
    &bytes[..count as usize]
}

/// Whether the first bytes in place, so many of each, are the same. Zeros stand behind them, so all
/// that is in place is compared at once.
fn are_same_in_place(
    count: u8,
    bytes: &[u8; BYTES_IN_PLACE],
    other_count: u8,
    other_bytes: &[u8; BYTES_IN_PLACE],
) -> bool
    requires mine { IsKept (Kept.Short count bytes.now) }
    requires theirs { IsKept (Kept.Short other_count other_bytes.now) }
    ensures { result ≡ bytes_eq (take count bytes.now) (take other_count other_bytes.now) }
{
    count == other_count && are_same(bytes, other_bytes)
}

/// Whether all bytes in place are the same. They are compared as two numbers, which overlap.
fn are_same(mine: &[u8; BYTES_IN_PLACE], theirs: &[u8; BYTES_IN_PLACE]) -> bool
    ensures { result ≡ bytes_eq mine.now theirs.now }
{
    word_at(mine, 0) == word_at(theirs, 0) && word_at(mine, 6) == word_at(theirs, 6)
}

/// The eight bytes in place from there on, as one number.
fn word_at(bytes: &[u8; BYTES_IN_PLACE], at: usize) -> u64
    requires { at + 8 ≤ BYTES_IN_PLACE }
    ensures { result ≡ from_le_bytes w64 (eight bytes.now at) }
{
    u64::from_le_bytes([
        bytes[at],
        bytes[at + 1],
        bytes[at + 2],
        bytes[at + 3],
        bytes[at + 4],
        bytes[at + 5],
        bytes[at + 6],
        bytes[at + 7],
    ])
}

/// These bytes in place, and zeros behind them.
fn short_of(bytes: &[u8]) -> Kept
    requires { length bytes.now ≤ BYTES_IN_PLACE }
    ensures same { kept_items result ≡ bytes.now }
    ensures kept { IsKept result }
{
    let mut short = [0; BYTES_IN_PLACE];
    for (place, byte) in bytes.iter().enumerate() {
        short[place] = *byte;
    }
    Kept::Short(bytes.len() as u8, short)
}

/// A copy of these bytes in a box.
fn boxed_bytes(alloc: Global, bytes: &[u8]) -> Result<Box<Vec<u8>>, Memory>
    ensures { IfOk result (λ copy. copy.value.items ≡ bytes.now) }
{
    let copy = Vec::from_slice(alloc, bytes)?;
    new_box(alloc, copy)
}

fn is_letter(byte: u8) -> bool
    ensures { result ≡ is_letter byte }
{
    byte.is_ascii_alphabetic()
}

fn is_word(byte: u8) -> bool
    ensures { result ≡ is_word byte }
{
    is_letter(byte) || byte.is_ascii_digit() || byte == b'_'
}

fn are_words(bytes: &[u8]) -> bool
    ensures { result ≡ list_all is_word bytes.now }
{
    bytes.iter().all(|byte| is_word(*byte))
}

fn is_name(bytes: &[u8]) -> bool
    ensures { result ≡ is_name bytes.now }
{
    match bytes.split_first() {
        None => false,
        Some((first, rest)) => is_letter(*first) && are_words(rest) && rest.len() < MOST_NAME_BYTES,
    }
}

fn is_printable(byte: u8) -> bool
    ensures { result ≡ is_printable byte }
{
    matches!(byte, 0x20..=0x7E)
}

fn are_printable(bytes: &[u8]) -> bool
    ensures { result ≡ list_all is_printable bytes.now }
{
    bytes.iter().all(|byte| is_printable(*byte))
}

fn is_text(bytes: &[u8]) -> bool
    ensures { result ≡ is_text bytes.now }
{
    bytes.len() <= MOST_TEXT_BYTES && are_printable(bytes)
}

#[derived]
impl Hash for Role {
    ghost use Rattle.dioc_terms.specs.Equality.{role_eq};
    ghost use Rattle.dioc_terms.specs.EqualityLemmas.{fed_alike, role_eq-decides};

    ghost respects_eq = { fed_alike role_eq role_eq-decides _ };
}
