//! The marks that a text gives its constructs.

ghost use Rattle.std.specs.Prelude.{◌≡◌, ◌+◌, ◌≤◌};
ghost use Rattle.dioc_terms.specs.Terms.{term, constructs, index_at, indexed, indexed_from, nodes};

use dioc_terms::{Choreo, Index};

/// Gives each construct the index that it has in the text of a program: epoch 0, and the place,
/// which is the number of constructs that begin before it in the text. Each scope gets level 0. It
/// takes no memory.
pub fn mark(choreo: &mut Choreo)
    requires { nodes (term choreo.old) ≤ 4294967295 }
    ensures { term choreo.new ≡ indexed (term choreo.old) }
{
    mark_from(choreo, 0);
}

/// Marks the part of a text before which so many constructs begin, and answers how many begin
/// before what follows it.
fn mark_from(choreo: &mut Choreo, before: u32) -> u32
    requires { before + nodes (term choreo.old) ≤ 4294967295 }
    ensures marks { term choreo.new ≡ indexed_from before (term choreo.old) }
    ensures next { result ≡ before + constructs (term choreo.old) }
    ensures few { constructs (term choreo.old) ≤ nodes (term choreo.old) }
{
    match choreo {
        Choreo::Skip => before,
        Choreo::Com { index, .. } => mark_one(index, before),
        Choreo::Set { index, .. } => mark_one(index, before),
        Choreo::Input { index, .. } => mark_one(index, before),
        Choreo::Seq(first, second) => {
            let between = mark_from(first, before);
            mark_from(second, between)
        }
        Choreo::Par(left, right) => {
            let between = mark_from(left, before);
            mark_from(right, between)
        }
        Choreo::If { index, yes, no, .. } => {
            let inside = mark_one(index, before);
            let between = mark_from(yes, inside);
            mark_from(no, between)
        }
        Choreo::While { index, body, .. } => {
            let inside = mark_one(index, before);
            mark_from(body, inside)
        }
        Choreo::Scope {
            index,
            body,
            level,
            ..
        } => {
            let inside = mark_one(index, before);
            *level = 0;
            mark_from(body, inside)
        }
    }
}

/// Marks a construct, and answers how many begin before what follows its beginning.
fn mark_one(index: &mut Index, before: u32) -> u32
    requires { before + 1 ≤ 4294967295 }
    ensures index { index.new ≡ index_at before }
    ensures next { result ≡ before + 1 }
{
    *index = Index {
        epoch: 0,
        place: before,
    };
    before + 1
}
