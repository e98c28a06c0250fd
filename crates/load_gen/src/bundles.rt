//! The bundle that is made of a seed and a size.

ghost use Rattle.std.specs.Prelude.{◌≡◌, ◌≤◌, [], map, None, IfOk};
ghost use Rattle.dioc_terms.specs.Plain.{plain, plain_rule};
ghost use Rattle.dioc_terms.specs.Terms.{term};
ghost use Rattle.load_gen.specs.Made.{made};
ghost use Rattle.rule_checks.specs.Refusals.{IsAccepted};

use crate::laws::made_are_accepted;
use crate::rules::{roles, rules, script};
use crate::texts::choreography;
use dioc_terms::{Bundle, Choreo, Items, Memory, Roles, Rule, Timed, Trace, give_up};
use std::alloc::Global;

/// The bundle that is made of the seed, with so many blocks, from 1 to 400.
///
/// Eight roles, r0 to r7, pass a token on. The choreography sets it and passes it once round, and
/// then comes a block for each number that is drawn from the seed: a message, a choice between two,
/// a loop of two turns or a scope, in groups of 20. Eight rules, one for the scopes of each leader,
/// are added once 10 visible entries stand; they stop to fit once 200 stand, and the first one is
/// dropped once 400 stand. The bundle is accepted.
pub fn make(alloc: Global, seed: u64, size: u32) -> Result<Bundle, Memory>
    requires some { 1 ≤ size }
    requires few { size ≤ 400 }
    ensures made { IfOk result (λ bundle. plain bundle ≡ made seed size) }
    ensures accepted { IfOk result (λ bundle. IsAccepted (plain bundle)) }
{
    made_are_accepted();
    let cast = roles(alloc)?;
    let script = script(alloc)?;
    let rules = rules(alloc)?;
    match choreography(alloc, seed, size) {
        Ok(choreo) => Ok(bundle(alloc, cast, choreo, rules, script)),
        Err(fault) => give_up(rules, fault),
    }
}

/// A bundle without opening rules, environment, inputs and trace. It takes no memory.
fn bundle(
    alloc: Global,
    cast: Roles,
    choreo: Choreo,
    rules: Items<Rule>,
    script: Items<Timed>,
) -> Bundle
    ensures { plain result ≡
        record {
          version = 1;
          cast = cast;
          choreo = term choreo;
          rules = map plain_rule rules;
          opening = 0;
          env = [];
          inputs = [];
          script = script;
          trace = record { entries = []; last = None };
        } }
{
    Bundle {
        version: 1,
        cast,
        choreo,
        rules,
        opening: 0,
        env: Items::new(Vec::new(alloc)),
        inputs: Items::new(Vec::new(alloc)),
        script,
        trace: Trace {
            entries: Items::new(Vec::new(alloc)),
            last: None,
        },
    }
}
