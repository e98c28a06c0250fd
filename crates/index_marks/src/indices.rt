//! Whether the indices of a choreography differ.

ghost use Rattle.std.specs.Prelude.{◌≡◌, [], ◌∷◌, ◌++◌, true, IfOk};
ghost use Rattle.dioc_terms.specs.Terms.{term};
ghost use Rattle.index_marks.specs.Indices.{indices, are_distinct, are_new};

use dioc_terms::{Choreo, Index, Memory};
use indexmap::IndexSet;
use std::alloc::Global;

/// Whether no two constructs of the choreography have the same index.
#[tactic(auto, using(crate::proofs::NewIndices::new_distinct))]
pub fn distinct(alloc: Global, choreo: &Choreo) -> Result<bool, Memory>
    ensures { IfOk result (λ distinct. distinct ≡ are_distinct (indices (term choreo.now))) }
{
    let mut seen = IndexSet::new(alloc);
    add_all(&mut seen, choreo)
}

/// Whether the choreography's indices are new to the set, and differ from each other. Where they
/// are and do, they are added.
#[tactic(auto, using(crate::proofs::NewIndices::new_append))]
fn add_all(seen: &mut IndexSet<Index>, choreo: &Choreo) -> Result<bool, Memory>
    ensures new { IfOk result (λ new. new ≡ are_new seen.old.keys (indices (term choreo.now))) }
    ensures added { IfOk result (λ new. new ≡ true → seen.new.keys ≡ seen.old.keys
        ++ indices (term choreo.now)) }
{
    match choreo {
        Choreo::Skip => Ok(true),
        Choreo::Com { index, .. } | Choreo::Set { index, .. } | Choreo::Input { index, .. } => {
            add(seen, *index)
        }
        Choreo::Seq(first, second) | Choreo::Par(first, second) => {
            Ok(add_all(seen, first)? && add_all(seen, second)?)
        }
        Choreo::If { index, yes, no, .. } => {
            Ok(add(seen, *index)? && add_all(seen, yes)? && add_all(seen, no)?)
        }
        Choreo::While { index, body, .. } | Choreo::Scope { index, body, .. } => {
            Ok(add(seen, *index)? && add_all(seen, body)?)
        }
    }
}

/// Whether the index is new to the set. Where it is, it is added.
fn add(seen: &mut IndexSet<Index>, index: Index) -> Result<bool, Memory>
    ensures new { IfOk result (λ new. new ≡ are_new seen.old.keys (index ∷ [])) }
    ensures added { IfOk result (λ new. new ≡ true → seen.new.keys ≡ seen.old.keys ++ index ∷ []) }
{
    Ok(seen.insert(index)?)
}
