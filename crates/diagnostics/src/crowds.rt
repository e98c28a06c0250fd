//! Too many rules in the book at once.

use dioc_terms::{Bundle, Change, Memory, Name, Rule};
use indexmap::IndexSet;
use limits::MOST_RULES;
use std::alloc::Global;

/// How many rules are in the book once there are too many, and the first that is one too many.
#[derive(Clone, Copy)]
pub struct Crowd {
    pub count: usize,
    pub first: Option<u32>,
}

impl Crowd {
    /// The names in the book are counted.
    fn of(names: &IndexSet<Name>, first: Option<u32>) -> Crowd {
        let count = names.len();
        Crowd { count, first }
    }
}

/// Adds the name of the rule of that number.
fn add(
    alloc: Global,
    rules: &[Rule],
    names: &mut IndexSet<Name>,
    number: u32,
) -> Result<(), Memory> {
    if let Some(rule) = rules.get(number as usize) {
        if !names.contains(&rule.name) {
            names.insert(rule.name.copy(alloc)?)?;
        }
    }
    Ok(())
}

/// Adds the rules of the start, all of them.
fn add_opening(
    alloc: Global,
    bundle: &Bundle,
    names: &mut IndexSet<Name>,
) -> Result<Option<u32>, Memory> {
    let mut first = None;
    for number in 0..bundle.opening {
        add(alloc, bundle.rules.as_slice(), names, number)?;
        if names.len() > MOST_RULES && first.is_none() {
            first = Some(number);
        }
    }
    Ok(first)
}

/// The rules in the book, followed through the script until there are too many.
pub fn crowded(alloc: Global, bundle: &Bundle) -> Result<Crowd, Memory> {
    let mut names = IndexSet::new(alloc);
    let first = add_opening(alloc, bundle, &mut names)?;
    if first.is_some() {
        return Ok(Crowd::of(&names, first));
    }
    for timed in bundle.script.as_slice() {
        match &timed.change {
            Change::Add(number) => {
                add(alloc, bundle.rules.as_slice(), &mut names, *number)?;
                if names.len() > MOST_RULES {
                    return Ok(Crowd::of(&names, Some(*number)));
                }
            }
            Change::Drop(name) => {
                names.shift_remove(name);
            }
            Change::Env(_, _) => {}
        }
    }
    Ok(Crowd::of(&names, None))
}
