//! Roles of a text.

ghost use Rattle.std.specs.Prelude.{◌≡◌, ◌∷◌, ◌+◌, drop, IfOk};
ghost use Rattle.aioc_tokens.specs.declared.words.Sort.{Sort};
ghost use Rattle.aioc_tokens.specs.Lexemes.{Lexeme, sort_of};
ghost use Rattle.dioc_terms.specs.Bundles.{is_identifier};

use aioc_tokens::Lexed;
use dioc_terms::{Memory, Role};
use expr_syntax::name_at;
use std::alloc::Global;

/// The role at a place of the text where a name stands.
pub fn role_at(alloc: Global, text: &Lexed<'_>, at: usize) -> Result<Role, Memory>
    requires { sort_of (drop at text.now) ≡ Sort.Name }
    ensures value { IfOk result (λ role. drop at text.now ≡ Lexeme.Name role.0
        ∷ drop (at + 1) text.now) }
{
    Ok(Role(name_at(alloc, text, at)?))
}
