//! A bundle with another choreography and other rules, and all else copied.

ghost use Rattle.std.specs.Prelude.{◌≡◌, map, IfOk};
ghost use Rattle.dioc_terms.specs.Plain.{plain, plain_rule};
ghost use Rattle.dioc_terms.specs.Terms.{term, cast_of};
ghost use Rattle.mend.specs.Mendable.{remade};

use dioc_terms::{
    Bindings, Bundle, Change, Choreo, Items, Last, Memory, Role, Roles, Rule, Timed, Trace, Values,
    give_up, roles,
};
use std::alloc::Global;

/// What a bundle has beside its choreography, its rules and two numbers.
#[derive(Drop)]
struct Rest {
    cast: Roles,
    env: Bindings,
    inputs: Items<(Role, Values)>,
    script: Items<Timed>,
    trace: Trace,
}

/// The bundle with this choreography and these rules, and with the choreography's cast. All else is
/// as it was.
pub(crate) fn with_texts(
    alloc: Global,
    bundle: &Bundle,
    choreo: Choreo,
    rules: Vec<Rule>,
) -> Result<Bundle, Memory>
    ensures { IfOk result (λ made. plain made
        ≡ remade (plain bundle.now) (term choreo) (map plain_rule rules.items)) }
{
    match copy_rest(alloc, bundle, &choreo) {
        Ok(rest) => Ok(Bundle {
            version: bundle.version,
            cast: rest.cast,
            choreo,
            rules: Items::new(rules),
            opening: bundle.opening,
            env: rest.env,
            inputs: rest.inputs,
            script: rest.script,
            trace: rest.trace,
        }),
        Err(memory) => give_up((choreo, rules), memory),
    }
}

/// The cast of the choreography, and copies of the rest of the bundle.
fn copy_rest(alloc: Global, bundle: &Bundle, choreo: &Choreo) -> Result<Rest, Memory>
    ensures cast { IfOk result (λ rest. rest.cast ≡ cast_of (term choreo.now)) }
    ensures env { IfOk result (λ rest. rest.env ≡ bundle.now.env) }
    ensures inputs { IfOk result (λ rest. rest.inputs ≡ bundle.now.inputs) }
    ensures script { IfOk result (λ rest. rest.script ≡ bundle.now.script) }
    ensures trace { IfOk result (λ rest. rest.trace ≡ bundle.now.trace) }
{
    Ok(Rest {
        cast: roles(alloc, choreo)?,
        env: bundle.env.copy(alloc)?,
        inputs: copy_inputs(alloc, bundle.inputs.as_slice())?,
        script: copy_script(alloc, bundle.script.as_slice())?,
        trace: copy_trace(alloc, &bundle.trace)?,
    })
}

fn copy_inputs(alloc: Global, inputs: &[(Role, Values)]) -> Result<Items<(Role, Values)>, Memory>
    ensures { IfOk result (λ copy. copy ≡ inputs.now) }
{
    let mut copies = Vec::with_capacity(alloc, inputs.len())?;
    for input in inputs {
        copies.push_reserved(copy_input(alloc, input)?);
    }
    Ok(Items::new(copies))
}

fn copy_input(alloc: Global, input: &(Role, Values)) -> Result<(Role, Values), Memory>
    ensures { IfOk result (λ copy. copy ≡ input.now) }
{
    let role = input.0.copy(alloc)?;
    Ok((role, input.1.copy(alloc)?))
}

fn copy_script(alloc: Global, script: &[Timed]) -> Result<Items<Timed>, Memory>
    ensures { IfOk result (λ copy. copy ≡ script.now) }
{
    let mut copies = Vec::with_capacity(alloc, script.len())?;
    for timed in script {
        copies.push_reserved(Timed {
            after: timed.after,
            change: copy_change(alloc, &timed.change)?,
        });
    }
    Ok(Items::new(copies))
}

fn copy_change(alloc: Global, change: &Change) -> Result<Change, Memory>
    ensures { IfOk result (λ copy. copy ≡ change.now) }
{
    match change {
        Change::Add(number) => Ok(Change::Add(*number)),
        Change::Drop(name) => Ok(Change::Drop(name.copy(alloc)?)),
        Change::Env(key, value) => {
            let key = key.copy(alloc)?;
            Ok(Change::Env(key, value.copy(alloc)?))
        }
    }
}

fn copy_trace(alloc: Global, trace: &Trace) -> Result<Trace, Memory>
    ensures { IfOk result (λ copy. copy ≡ trace.now) }
{
    let entries = trace.entries.copy(alloc)?;
    let last = copy_last(&trace.last);
    Ok(Trace { entries, last })
}

fn copy_last(last: &Option<Last>) -> Option<Last>
    ensures { result ≡ last.now }
{
    match last {
        Some(Last::Ended(count)) => Some(Last::Ended(*count)),
        Some(Last::Stopped(count)) => Some(Last::Stopped(*count)),
        None => None,
    }
}
