//! The stores of all roles.

ghost use Rattle.std.specs.Prelude.{◌≡◌, ◌<◌, ◌++◌, [], None, IfOk, OnOk};
ghost use Rattle.indexmap.specs.IndexMap.{get};
ghost use Rattle.dioc_terms.specs.Equality.{role_eq};
ghost use Rattle.dioc_terms.specs.KeptStores.{room, store_of};
ghost use Rattle.dioc_terms.specs.Stores.{fresh_store};
ghost use Rattle.global_follower.specs.KeptEffects.{effect_of};
ghost use Rattle.global_follower.specs.StoreMaps.{places_in, stores_in, IsOpened, IsReadyAt};
ghost use Rattle.global_steps.specs.Follow.{affected, inputs_of};

use crate::effects::Effect;
use dioc_terms::{Entry, Items, Memory, Role, Store, Value, Values};
use indexmap::IndexMap;
use std::alloc::Global;

/// The stores of all roles. A role that has had no input and has done nothing has no place in the
/// map: its store is empty.
#[derive(Drop)]
pub(crate) struct Stores {
    stores: IndexMap<Role, Store>,
    empty: Store,
    ghost is_empty: { store_of empty ≡ fresh_store [] },
}

impl Stores {
    ghost use Rattle.std.specs.Prelude.{◌≡◌, ◌≢◌, false, IfOk, OnOk};
    ghost use Rattle.dioc_terms.specs.KeptStores.{store_of};
    ghost use Rattle.dioc_terms.specs.Stores.{fresh_store};
    ghost use Rattle.global_follower.specs.KeptEffects.{effect_of, is_put};
    ghost use Rattle.global_follower.specs.KeptStores.{stores_of, HasRoomFor};
    ghost use Rattle.global_steps.specs.Follow.{Leaves, affected, inputs_of, updated};

    /// The stores before the first entry: no variable is set, and each role has the inputs that are
    /// given for it, joined in their order.
    pub(crate) fn opening(alloc: Global, given: &[(Role, Values)]) -> Result<Stores, Memory>
        ensures { IfOk result (λ stores. stores_of stores
            ≡ λ q. fresh_store (inputs_of given.now q)) }
    {
        let mut stores = IndexMap::new(alloc);
        for pair in given {
            open_role(alloc, given, &pair.0, &mut stores)?;
        }
        let empty = Store::new(alloc, Items::new(Vec::new(alloc)));
        Ok(Stores { stores, empty })
    }

    /// The store of the role.
    pub(crate) fn of(&self, role: &Role) -> &Store
        ensures { store_of result.now ≡ stores_of self.now role.now }
    {
        match self.stores.get(role) {
            Some(store) => store,
            None => &self.empty,
        }
    }

    /// Makes room for one more variable in the store of the role.
    pub(crate) fn make_ready(&mut self, alloc: Global, role: &Role) -> Result<(), Memory>
        ensures same { stores_of self.new ≡ stores_of self.old }
        ensures ready { OnOk result (HasRoomFor role.now self.new) }
    {
        match self.stores.get_mut(role) {
            Some(store) => store.reserve(1),
            None => open_place(alloc, &mut self.stores, role),
        }
    }

    /// Makes room for one more variable in the store of the role, unless its entry is a put, which
    /// writes none.
    pub(crate) fn make_ready_for(
        &mut self,
        alloc: Global,
        role: &Role,
        entry: &Entry,
    ) -> Result<(), Memory>
        ensures same { stores_of self.new ≡ stores_of self.old }
        ensures ready { OnOk result (is_put entry.now ≡ false → HasRoomFor role.now self.new) }
    {
        match entry {
            Entry::Put { .. } => Ok(()),
            _ => self.make_ready(alloc, role),
        }
    }

    /// Does to the store of the role what an entry does to it. It takes no memory.
    #[tactic(auto, using(crate::proofs::StoreLemmas::unaffected))]
    pub(crate) fn affect(&mut self, role: &Role, effect: Effect)
        requires { effect_of effect ≢ Leaves → HasRoomFor role.now self.old }
        ensures { stores_of self.new ≡ updated role.now
            (affected (effect_of effect) (stores_of self.old role.now)) (stores_of self.old) }
    {
        if let Effect::Leaves = effect {
            return;
        }
        if let Some(store) = self.stores.get_mut(role) {
            affect(store, effect);
        }
    }
}

/// Gives the role a place with all inputs that are given for it, where it has none.
fn open_role(
    alloc: Global,
    given: &[(Role, Values)],
    role: &Role,
    stores: &mut IndexMap<Role, Store>,
) -> Result<(), Memory>
    ensures { OnOk result (IsOpened given.now role.now (places_in stores.old)
        (places_in stores.new)) }
{
    if stores.contains_key(role) {
        return Ok(());
    }
    let store = opening_store(alloc, given, role)?;
    stores.insert(role.copy(alloc)?, store)?;
    Ok(())
}

/// Gives the role, which has no place, one with room for one more variable.
fn open_place(alloc: Global, stores: &mut IndexMap<Role, Store>, role: &Role) -> Result<(), Memory>
    requires { get role_eq stores.old role.now ≡ None }
    ensures same { stores_in stores.new ≡ stores_in stores.old }
    ensures ready { OnOk result (IsReadyAt role.now stores.new) }
{
    let mut empty = Store::new(alloc, Items::new(Vec::new(alloc)));
    empty.reserve(1)?;
    stores.insert(role.copy(alloc)?, empty)?;
    Ok(())
}

/// The store of a role before the first entry.
fn opening_store(alloc: Global, given: &[(Role, Values)], role: &Role) -> Result<Store, Memory>
    ensures { IfOk result (λ store. store_of store ≡ fresh_store (inputs_of given.now role.now)) }
{
    let mut inputs = Vec::new(alloc);
    add_inputs(alloc, given, role, &mut inputs)?;
    Ok(Store::new(alloc, Items::new(inputs)))
}

/// Does to a store what an entry does to it.
fn affect(store: &mut Store, effect: Effect)
    requires { 0 < room store.old }
    ensures { store_of store.new ≡ affected (effect_of effect) (store_of store.old) }
{
    match effect {
        Effect::Leaves => {}
        Effect::Assigns(var, value) => store.set(var, value),
        Effect::Reads(var, value) => {
            let _input = store.next_input();
            store.set(var, value);
        }
    }
}

/// Adds the inputs that are given for the role.
fn add_inputs(
    alloc: Global,
    given: &[(Role, Values)],
    role: &Role,
    inputs: &mut Vec<Value>,
) -> Result<(), Memory>
    ensures { OnOk result (inputs.new.items ≡ inputs.old.items ++ inputs_of given.now role.now) }
{
    match given {
        [] => Ok(()),
        [(owner, values), rest @ ..] => {
            if owner == role {
                add_copies(alloc, values.as_slice(), inputs)?;
            }
            add_inputs(alloc, rest, role, inputs)
        }
    }
}

fn add_copies(alloc: Global, values: &[Value], copies: &mut Vec<Value>) -> Result<(), Memory>
    ensures { OnOk result (copies.new.items ≡ copies.old.items ++ values.now) }
{
    for value in values {
        copies.push(value.copy(alloc)?)?;
    }
    Ok(())
}
