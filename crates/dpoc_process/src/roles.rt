//! What a role that runs can be asked, whatever form its process is kept in.

ghost use Rattle.std.specs.Prelude.{◌≡◌, ◌≤◌, ◌↔◌, false, true, length, IfOk, IsErrOf, OnErr, OnOk};
ghost use Rattle.dioc_terms.specs.declared.entries.Act.{Act as OneAct};
ghost use Rattle.dioc_terms.specs.declared.names.Role.{Role as OneRole};
ghost use Rattle.dioc_terms.specs.Equality.{member};
ghost use Rattle.dioc_terms.specs.KeptStores.{store_of};
ghost use Rattle.dioc_terms.specs.Terms.{is_in, term};
ghost use Rattle.dpoc_process.specs.Handed.{handed, Brings, IsEnabled};
ghost use Rattle.dpoc_process.specs.RoleSteps.{IsPrepared, IsShown, IsStep};
ghost use Rattle.dpoc_process.specs.LocalStates.{IsNumbered, LacksAt, LocalState, offered};
ghost use Rattle.process_steps.specs.Steps.{Given, ended, is_offered};
ghost use Rattle.projection.specs.Projection.{projected};

use crate::runs::{Got, PrepareFault, Prepared, Shown};
use dioc_terms::{Act, Choreo, Memory, Role, Store};
use std::alloc::Global;

/// A role with its process and its store, which runs act by act: an act is prepared, with all the
/// memory that its step takes, and then the role advances by it and takes none.
pub trait Runs: Drop {
    // the role, its process and its store
    ghost local: { Self → LocalState };

    // the act is prepared, and nothing was done since
    ghost is_ready: { Self → OneAct → Type 0 };

    /// The acts that the process offers, from left to right in it, takes included whether or not
    /// their message is there.
    fn acts(&self, alloc: Global) -> Result<Vec<Act>, Memory>
        ensures { IfOk result (λ acts. acts.items ≡ offered (local self.now)) };

    /// Lists the acts that the process offers, as `acts` does, in a list from before: an act that
    /// stands there already may stay as it is. After `Memory` the list may have any acts.
    fn refresh_acts(&self, alloc: Global, acts: &mut Vec<Act>) -> Result<(), Memory>
        ensures { OnOk result (acts.new.items ≡ offered (local self.now)) };

    /// Lists the acts that the process offers, as `acts` does, in a list that has all of them but
    /// some, which come one behind the other at the place `at`, counted from 0. After `Memory` the
    /// list may have any acts.
    fn fill_acts(&self, alloc: Global, acts: &mut Vec<Act>, at: usize) -> Result<(), Memory>
        requires inside { at ≤ length acts.old.items }
        requires lacks { LacksAt at acts.old.items (offered (local self.now)) }
        ensures { OnOk result (acts.new.items ≡ offered (local self.now)) };

    /// Makes the role ready for an act, and shows what is known of the act before it is done.
    ///
    /// It takes all memory of the step and keeps it; the process, the variables and the inputs left
    /// stay as they are. After `Ok` the role is ready for this act until its next `prepare` or
    /// `advance`, and after an error for none. The error is `NoAct` exactly where the process
    /// doesn't offer the act, and `Memory` where memory runs out.
    fn prepare(&mut self, alloc: Global, act: &Act) -> Result<Prepared, PrepareFault>
        ensures same { local self.new ≡ local self.old }
        ensures ready { OnOk result (is_ready self.new act.now) }
        ensures ready_alone { (other : OneAct) → is_ready self.new other → other ≡ act.now }
        ensures unready { OnErr result ((other : OneAct) → ¬ is_ready self.new other) }
        ensures no_act { IsErrOf result PrepareFault.NoAct ↔
            (is_offered act.now (offered (local self.old)) ≡ false) }
        ensures shown { IfOk result (IsPrepared (local self.old) act.now) };

    /// Makes the role ready for an act as `prepare` does, and shows the same but the act.
    fn prepare_act(&mut self, alloc: Global, act: &Act) -> Result<Shown, PrepareFault>
        ensures same { local self.new ≡ local self.old }
        ensures ready { OnOk result (is_ready self.new act.now) }
        ensures ready_alone { (other : OneAct) → is_ready self.new other → other ≡ act.now }
        ensures unready { OnErr result ((other : OneAct) → ¬ is_ready self.new other) }
        ensures no_act { IsErrOf result PrepareFault.NoAct ↔
            (is_offered act.now (offered (local self.old)) ≡ false) }
        ensures shown { IfOk result (IsShown (local self.old) act.now) };

    /// Makes the role ready for the act of that number among those that the process offers, counted
    /// from 0, as `prepare` does, and shows the same but the act. No act before it is the same.
    /// After an error, which says that memory ran out, the role is ready for none.
    fn prepare_at(&mut self, alloc: Global, number: usize, act: &Act) -> Result<Shown, Memory>
        requires { IsNumbered number act.now (offered (local self.old)) }
        ensures same { local self.new ≡ local self.old }
        ensures ready { OnOk result (is_ready self.new act.now) }
        ensures ready_alone { (other : OneAct) → is_ready self.new other → other ≡ act.now }
        ensures unready { OnErr result ((other : OneAct) → ¬ is_ready self.new other) }
        ensures shown { IfOk result (IsShown (local self.old) act.now) };

    /// Does an act for which the role is ready, with what comes with it: the message of a take,
    /// what the book says of a scope, else nothing. It takes no memory. The act can be done with
    /// that: a message is one that the process can take there.
    fn advance(&mut self, act: &Act, got: Got)
        requires ready { is_ready self.old act.now }
        requires can { IsEnabled (local self.old) act.now (handed got) }
        ensures steps { (given : Given) → Brings (local self.old) act.now (handed got) given →
            IsStep (local self.old) act.now given (local self.new) }
        ensures unready { (other : OneAct) → ¬ is_ready self.new other };

    /// Whether nothing is left to do. It takes no memory.
    fn is_done(&self) -> bool
        ensures { result ≡ ended (local self.now).process };

    /// The variables of the role, and the inputs that it has left. It takes no memory.
    fn store(&self) -> &Store
        ensures { store_of result.now ≡ (local self.now).store };
}

/// A role that runs, made of a choreography and its store.
pub trait Begins: Runs {
    /// The role before its first act: its process is its projection. The roles of the choreography
    /// are in the cast.
    fn begin(
        alloc: Global,
        role: Role,
        choreo: &Choreo,
        cast: &[Role],
        store: Store,
    ) -> Result<Self, Memory>
        requires { (q : OneRole) → is_in q (term choreo.now) ≡ true → member q cast.now ≡ true }
        ensures { IfOk result (λ state. Self.local state
            ≡ record {
              role = role;
              process = projected cast.now (term choreo.now) role;
              store = store_of store;
            }) };
}
