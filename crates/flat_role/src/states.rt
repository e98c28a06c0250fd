//! A role that runs over code.

ghost use Rattle.std.specs.Prelude.{◌≡◌, ◌≤◌, true, IfOk, length, vec_capacity};
ghost use Rattle.dioc_terms.specs.KeptStores.{store_of};
ghost use Rattle.flat_code.specs.Codes.{process_of};
ghost use Rattle.flat_role.specs.PlanMarks.{plan_len};
ghost use Rattle.flat_role.specs.Progress.{AreOf, AreOf-prop, marks_by};
ghost use Rattle.role_statuses.specs.KeptTests.{is_kept};
ghost use Rattle.role_statuses.specs.ListLaws.{active};

use crate::advancing::advance;
use crate::filling::fill_acts;
use crate::numbered::find_at;
use crate::progress::Progress;
use crate::readying::{prepare_found, prepare_whole};
use crate::relisting::refresh_acts;
use crate::steps::{Own, clear, drop_got};
use crate::updates::count_ops;
use dioc_terms::{Act, Memory, Role, Store, give_up};
use dpoc_process::{Got, PrepareFault, Prepared, Runs, Shown};
use flat_code::{Code, Plan};
use std::alloc::Global;
use std::mem;

/// A role that runs over flat code: the code, which never changes, a mark for each of its places,
/// and the places that can act. A step writes the mark of the place that acts and those of the
/// constructs around it that end with it.
pub struct FlatRole {
    role: Role,
    plan: Plan,
    progress: Progress,
    store: Store,
    ready: Option<Own>,
    ghost as_long: { length progress.marks.items ≡ plan_len plan },
    ghost kept: { is_kept role (marks_by role plan progress) (process_of plan.code) ≡ true },
    ghost listed: { progress.active.items ≡ active role (marks_by role plan progress)
        (process_of plan.code) },
    ghost room: { plan_len plan ≤ vec_capacity progress.active },
    ghost spare: { plan_len plan ≤ vec_capacity progress.fresh },
    ghost mine: { AreOf role progress.marks.items } by { AreOf-prop role progress.marks.items },
}

impl Drop for FlatRole {
    fn drop(self) {
        let FlatRole {
            role: _,
            plan: _,
            progress: _,
            store: _,
            ready: _,
        } = self;
    }
}

impl FlatRole {
    ghost use Rattle.dpoc_process.specs.RoleLaws.{local};
    ghost use Rattle.flat_role.specs.FlatStates.{code_len, local_of};

    /// The role with the process that the code stands for and this store. It notes of each place
    /// of the code what is known of it, in memory by the code's length, of which the want is the
    /// error.
    pub fn new(alloc: Global, role: Role, code: Code, store: Store) -> Result<FlatRole, Memory>
        ensures { IfOk result (λ flat. local_of flat ≡ local role (process_of code)
            (store_of store)) }
    {
        let plan = match Plan::new(alloc, code) {
            Ok(plan) => plan,
            Err(fault) => return give_up((role, store), fault),
        };
        match Progress::new(alloc, &role, &plan) {
            Ok(progress) => Ok(FlatRole {
                role,
                plan,
                progress,
                store,
                ready: None,
            }),
            Err(fault) => give_up(((role, store), plan), fault),
        }
    }

    /// How many ops there are: those of the code that it was made with, and those of the updates
    /// that run in it; the greatest number where there are more. It takes no memory.
    pub fn code_len(&self) -> usize
        ensures { result ≡ code_len self.now }
    {
        count_ops(&self.plan, &self.progress)
    }
}

impl Runs for FlatRole {
    ghost use Rattle.flat_role.specs.FlatStates.{local_of, IsReady};

    ghost local = { local_of };

    ghost is_ready = { IsReady };

    fn acts(&self, alloc: Global) -> Result<Vec<Act>, Memory> {
        self.progress.acts(alloc, &self.role, &self.plan)
    }

    fn refresh_acts(&self, alloc: Global, acts: &mut Vec<Act>) -> Result<(), Memory> {
        refresh_acts(&self.progress, alloc, &self.role, &self.plan, acts)
    }

    fn fill_acts(&self, alloc: Global, acts: &mut Vec<Act>, at: usize) -> Result<(), Memory> {
        fill_acts(&self.progress, alloc, &self.role, &self.plan, acts, at)
    }

    fn prepare(&mut self, alloc: Global, act: &Act) -> Result<Prepared, PrepareFault> {
        clear(&mut self.ready);
        let Some(at) = self.progress.find(&self.role, &self.plan, act) else {
            return Err(PrepareFault::NoAct);
        };
        match prepare_whole(
            alloc,
            &self.role,
            &self.plan,
            &mut self.progress,
            &mut self.store,
            &mut self.ready,
            (act, at),
        ) {
            Ok(prepared) => Ok(prepared),
            Err(_) => Err(PrepareFault::Memory),
        }
    }

    fn prepare_act(&mut self, alloc: Global, act: &Act) -> Result<Shown, PrepareFault> {
        clear(&mut self.ready);
        let Some(at) = self.progress.find(&self.role, &self.plan, act) else {
            return Err(PrepareFault::NoAct);
        };
        match prepare_found(
            alloc,
            &self.role,
            &self.plan,
            &mut self.progress,
            &mut self.store,
            &mut self.ready,
            (act, at),
        ) {
            Ok(shown) => Ok(shown),
            Err(_) => Err(PrepareFault::Memory),
        }
    }

    fn prepare_at(&mut self, alloc: Global, number: usize, act: &Act) -> Result<Shown, Memory> {
        clear(&mut self.ready);
        let at = find_at(&self.progress, &self.role, &self.plan, number, act);
        prepare_found(
            alloc,
            &self.role,
            &self.plan,
            &mut self.progress,
            &mut self.store,
            &mut self.ready,
            (act, at),
        )
    }

    fn advance(&mut self, act: &Act, got: Got) {
        let mut own = self.ready.take().unwrap();
        let mut came = got;
        advance(
            &self.role,
            &self.plan,
            act,
            &mut self.progress,
            &mut self.store,
            &mut own,
            &mut came,
        );
        drop_got(came);
    }

    fn is_done(&self) -> bool {
        self.progress.is_done(&self.role, &self.plan)
    }

    fn store(&self) -> &Store {
        &self.store
    }
}
