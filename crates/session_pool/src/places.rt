//! What was made of the answers, in the order of their sessions.

ghost use Rattle.std.specs.Prelude.{◌≡◌, ◌<◌, All, IfOk, None, Some, length, map, true};
ghost use Rattle.std.specs.List.{AllByRecursion};
ghost use Rattle.std.specs.Option.{is_some};
ghost use Rattle.session_pool.specs.Places.{placed};

use crate::jobs::Numbered;
use dioc_terms::Memory;
use std::alloc::Global;

/// So many places in which nothing stands.
pub fn empty_places<T: Drop>(alloc: Global, count: usize) -> Result<Vec<Option<T>>, Memory>
    ensures count { IfOk result (λ places. length places.items ≡ count) }
    ensures empty { IfOk result (λ places. All (λ place. place ≡ None) places.items) }
{
    let mut places = Vec::with_capacity(alloc, count)?;
    'places: while places.len() < count {
        places.push(None)?;
    }
    Ok(places)
}

/// Puts what was made at the places of their numbers.
pub fn place_all<T: Drop>(places: &mut Vec<Option<T>>, made: Vec<Numbered<T>>)
    requires { AllByRecursion (λ numbered. numbered.number < length places.old.items) made.items }
    ensures { places.new.items ≡ placed places.old.items made.items }
{
    for numbered in made {
        let Numbered { number, made: one } = numbered;
        places[number as usize] = Some(one);
    }
}

/// What stands at places none of which is empty.
pub fn take_all<T: Drop>(alloc: Global, places: Vec<Option<T>>) -> Result<Vec<T>, Memory>
    requires { AllByRecursion (λ place. is_some place ≡ true) places.items }
    ensures { IfOk result (λ made. map Some made.items ≡ places.items) }
{
    let mut made = Vec::with_capacity(alloc, places.len())?;
    for place in places {
        let Some(one) = place else { unreachable!() };
        made.push(one)?;
    }
    Ok(made)
}
