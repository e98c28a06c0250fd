//! Which entries show a visible run, and which are of auxiliary messages alone.

ghost use Rattle.std.specs.Prelude.{◌≡◌};
ghost use Rattle.dioc_terms.specs.Messages.{is_aux, is_aux_tag};

use crate::entries::Entry;
use crate::processes::Tag;

impl Tag {
    /// Whether the tag is one of the six auxiliary ones, and no operation. It takes no memory.
    pub fn is_aux(&self) -> bool
        ensures { result ≡ is_aux_tag self.now }
    {
        !matches!(self, Tag::Op(_))
    }
}

impl Entry {
    /// Whether the entry puts or takes a message with an auxiliary tag. All other entries are
    /// visible. It takes no memory.
    pub fn is_aux(&self) -> bool
        ensures { result ≡ is_aux self.now }
    {
        match self {
            Entry::Put { key, .. } | Entry::Take { key, .. } => key.tag.is_aux(),
            _ => false,
        }
    }
}
