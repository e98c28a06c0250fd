//! Bundles that are made of numbers.

ghost use Rattle.std.specs.Prelude.{◌≡◌, ◌≤◌, All, IfOk, length};
ghost use Rattle.dioc_terms.specs.Bundles.{IsFormed};
ghost use Rattle.dioc_terms.specs.Plain.{plain};

use dioc_terms::{Bundle, Memory};
use load_gen::make;
use std::alloc::Global;

/// So many bundles of that size, each made of another number, from the first one on.
pub fn bundles(alloc: Global, first: u64, size: u32, count: u32) -> Result<Vec<Bundle>, Memory>
    requires some { 1 ≤ size }
    requires few { size ≤ 400 }
    requires count { count ≤ 1000 }
    ensures formed { IfOk result (λ bundles. All (λ b. IsFormed (plain b)) bundles.items) }
    ensures count { IfOk result (λ bundles. length bundles.items ≡ count) }
{
    let mut bundles = Vec::new(alloc);
    'made: while bundles.len() < count as usize {
        let number = first.wrapping_add(bundles.len() as u64);
        let bundle = make(alloc, number, size)?;
        bundles.push(bundle)?;
    }
    Ok(bundles)
}
