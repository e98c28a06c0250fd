//! What a role is to do: its parts of bundles.

ghost use Rattle.std.specs.Prelude.{All};
ghost use Rattle.dioc_terms.specs.Bundles.{IsFormed};
ghost use Rattle.dioc_terms.specs.Plain.{plain};

use crate::names::role;
use bundle_text::read_bundle;
use dioc_terms::{Bundle, Choreo, Memory, Proc, Role, give_up, new_boxes};
use projection::project;
use std::alloc::Global;
use std::slice::from_ref;
use std::test::Fail;

/// A bundle with each form.
const FORMS: &[u8] = b"aioc { (x@b = input() | o: a(1) -> b(y)); scope @a { w@b = 1 }; n@b = 0; \
    while n < 2 @b { n@b = n + 1; p: b(n) -> a(m) }; \
    if m == 3 @a { q: b(n) -> a(k) } else { k@a = 0 } }";

/// The bundle for the update of its scope.
const UPDATE: &[u8] = b"aioc { (w@b = 2 | v@b = 3); r: a(4) -> b(w) }";

/// What a role is to do.
#[derive(Drop)]
pub struct Task {
    /// The role.
    pub role: Role,
    /// What all roles do.
    pub choreo: Choreo,
    /// What the role does in place of the body of a scope that is replaced.
    pub update: Proc,
}

impl Task {
    /// These bundles, side by side, and the role's parts of the others, side by side, in place of
    /// each scope.
    pub fn new(
        alloc: Global,
        bundles: &[Bundle],
        updates: &[Bundle],
        role: &Role,
    ) -> Result<Task, Memory>
        requires { All (λ b. IsFormed (plain b)) updates.now }
    {
        Ok(Task {
            role: role.copy(alloc)?,
            choreo: side_by_side(alloc, bundles)?,
            update: parts_of(alloc, updates, role)?,
        })
    }

    /// The task of the role of that letter in the bundle that the text spells, with the other one
    /// for its scopes.
    pub fn read(alloc: Global, bundle: &[u8], update: &[u8], letter: u8) -> Result<Task, Fail> {
        let bundle = read_bundle(alloc, bundle)?;
        let task = with_update(alloc, &bundle, update, letter);
        drop(bundle);
        task
    }

    /// The task of the role of that letter, `a` or `b`, in a bundle with each form.
    pub fn of_forms(alloc: Global, letter: u8) -> Result<Task, Fail> {
        Task::read(alloc, FORMS, UPDATE, letter)
    }
}

/// The same in this bundle.
fn with_update(alloc: Global, bundle: &Bundle, update: &[u8], letter: u8) -> Result<Task, Fail> {
    let update = read_bundle(alloc, update)?;
    let task = with_role(alloc, bundle, &update, letter);
    drop(update);
    task
}

/// The same with this update.
fn with_role(alloc: Global, bundle: &Bundle, update: &Bundle, letter: u8) -> Result<Task, Fail>
    requires { IsFormed (plain update.now) }
{
    let role = role(alloc, letter)?;
    let task = Task::new(alloc, from_ref(bundle), from_ref(update), &role);
    drop(role);
    Ok(task?)
}

/// These bundles, side by side.
fn side_by_side(alloc: Global, bundles: &[Bundle]) -> Result<Choreo, Memory> {
    match bundles {
        [] => Ok(Choreo::Skip),
        [bundle] => bundle.choreo.copy(alloc),
        [bundle, rest @ ..] => {
            let first = bundle.choreo.copy(alloc)?;
            match side_by_side(alloc, rest) {
                Ok(second) => both(alloc, first, second),
                Err(fault) => give_up(first, fault),
            }
        }
    }
}

/// Two choreographies side by side.
fn both(alloc: Global, first: Choreo, second: Choreo) -> Result<Choreo, Memory> {
    let (first, second) = new_boxes(alloc, first, second)?;
    Ok(Choreo::Par(first, second))
}

/// The parts of a role of these bundles, side by side.
fn parts_of(alloc: Global, bundles: &[Bundle], role: &Role) -> Result<Proc, Memory>
    requires { All (λ b. IsFormed (plain b)) bundles.now }
{
    match bundles {
        [] => Ok(Proc::Skip),
        [bundle] => part_of(alloc, bundle, role),
        [bundle, rest @ ..] => {
            let first = part_of(alloc, bundle, role)?;
            match parts_of(alloc, rest, role) {
                Ok(second) => beside(alloc, first, second),
                Err(fault) => give_up(first, fault),
            }
        }
    }
}

/// Two processes side by side.
fn beside(alloc: Global, first: Proc, second: Proc) -> Result<Proc, Memory> {
    let (first, second) = new_boxes(alloc, first, second)?;
    Ok(Proc::Par(first, second))
}

/// The process of a role of a bundle.
fn part_of(alloc: Global, bundle: &Bundle, role: &Role) -> Result<Proc, Memory>
    requires { IsFormed (plain bundle.now) }
{
    dioc_terms::casts_are_roles();
    project(alloc, &bundle.choreo, role, bundle.cast.as_slice())
}
