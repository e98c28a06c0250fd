//! Names of one letter, and what has such a name.

ghost use Rattle.std.specs.Prelude.{◌≡◌, ◌∷◌, [], IfOk};

use dioc_terms::{Name, NameFault, Role, Tag};
use std::alloc::Global;

pub fn name(alloc: Global, letter: u8) -> Result<Name, NameFault>
    ensures { IfOk result (λ name. name ≡ letter ∷ []) }
{
    Name::read(alloc, &[letter])
}

pub fn role(alloc: Global, letter: u8) -> Result<Role, NameFault>
    ensures { IfOk result (λ role. role.0 ≡ letter ∷ []) }
{
    Ok(Role(name(alloc, letter)?))
}

/// The tag of a message of the operation `o`.
pub fn operation(alloc: Global) -> Result<Tag, NameFault> {
    Ok(Tag::Op(name(alloc, b'o')?))
}
