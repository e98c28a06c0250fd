//! A role whose process is kept as a tree.

ghost use Rattle.std.specs.Prelude.{◌≡◌};
ghost use Rattle.dioc_terms.specs.KeptStores.{store_of};
ghost use Rattle.dioc_terms.specs.Processes.{process};

use crate::offered::{is_ended, offers_of};
use crate::ready::{Ready, advanced, clear, keep_ready, make_ready};
use crate::roles::{Begins, Runs};
use crate::runs::{Got, PrepareFault, Prepared, Shown};
use dioc_terms::{Act, Choreo, Memory, Proc, Role, Store, give_up};
use projection::project;
use std::alloc::Global;
use std::mem;

/// A role that runs, with its process as a tree. A step copies nothing of the process but the body
/// of a loop, once a turn.
pub struct RoleState {
    role: Role,
    proc: Proc,
    store: Store,
    ready: Option<Ready>,
}

impl Drop for RoleState {
    fn drop(self) {
        let RoleState {
            role: _,
            proc: _,
            store: _,
            ready: _,
        } = self;
    }
}

impl RoleState {
    ghost use Rattle.dpoc_process.specs.KeptStates.{local_of};
    ghost use Rattle.dpoc_process.specs.RoleLaws.{local};

    /// The role with this process and this store. It takes no memory.
    pub fn new(role: Role, proc: Proc, store: Store) -> RoleState
        ensures { local_of result ≡ local role (process proc) (store_of store) }
    {
        RoleState {
            role,
            proc,
            store,
            ready: None,
        }
    }
}

impl Runs for RoleState {
    ghost use Rattle.dpoc_process.specs.KeptStates.{local_of, IsReady};

    ghost local = { local_of };

    ghost is_ready = { IsReady };

    fn acts(&self, alloc: Global) -> Result<Vec<Act>, Memory> {
        offers_of(alloc, &self.role, &self.proc)
    }

    fn refresh_acts(&self, alloc: Global, acts: &mut Vec<Act>) -> Result<(), Memory> {
        let listed = self.acts(alloc)?;
        drop(mem::replace(acts, listed));
        Ok(())
    }

    fn fill_acts(&self, alloc: Global, acts: &mut Vec<Act>, _at: usize) -> Result<(), Memory> {
        self.refresh_acts(alloc, acts)
    }

    fn prepare(&mut self, alloc: Global, act: &Act) -> Result<Prepared, PrepareFault> {
        clear(&mut self.ready);
        match make_ready(alloc, &self.role, &self.proc, &mut self.store, act) {
            Ok((ready, prepared)) => {
                keep_ready(&mut self.ready, ready);
                Ok(prepared)
            }
            Err(fault) => Err(fault),
        }
    }

    fn prepare_act(&mut self, alloc: Global, act: &Act) -> Result<Shown, PrepareFault> {
        let prepared = self.prepare(alloc, act)?;
        match prepared.into_shown(alloc) {
            Ok(shown) => Ok(shown),
            Err(_) => {
                clear(&mut self.ready);
                Err(PrepareFault::Memory)
            }
        }
    }

    fn prepare_at(&mut self, alloc: Global, _number: usize, act: &Act) -> Result<Shown, Memory> {
        match self.prepare_act(alloc, act) {
            Ok(shown) => Ok(shown),
            Err(PrepareFault::NoAct) => unreachable!(),
            Err(PrepareFault::Memory) => Err(Memory),
        }
    }

    fn advance(&mut self, act: &Act, got: Got) {
        let ready = self.ready.take().unwrap();
        let proc = mem::replace(&mut self.proc, Proc::Skip);
        let after = advanced(&self.role, act, proc, &mut self.store, ready, got);
        drop(mem::replace(&mut self.proc, after));
    }

    fn is_done(&self) -> bool {
        is_ended(&self.proc)
    }

    fn store(&self) -> &Store {
        &self.store
    }
}

impl Begins for RoleState {
    fn begin(
        alloc: Global,
        role: Role,
        choreo: &Choreo,
        cast: &[Role],
        store: Store,
    ) -> Result<RoleState, Memory> {
        match project(alloc, choreo, &role, cast) {
            Ok(proc) => Ok(RoleState::new(role, proc, store)),
            Err(fault) => give_up((role, store), fault),
        }
    }
}
