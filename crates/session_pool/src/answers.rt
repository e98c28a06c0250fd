//! What one session is answered.

ghost use Rattle.std.specs.Prelude.{◌≡◌, ◌≤◌, IfOk, Ok};
ghost use Rattle.dioc_terms.specs.Bundles.{IsFormed};
ghost use Rattle.dioc_terms.specs.Plain.{plain};
ghost use Rattle.rule_checks.specs.Refusals.{IsAccepted};
ghost use Rattle.session_pool.specs.Answers.{answer_of, answer_seen, ended_after};

use dioc_terms::{Bundle, Memory, give_up};
use flat_role::FlatRole;
use net_core::Net;
use net_laws::accepted_is_sound;
use rule_checks::{Refusal, accept};
use schedule::run_seeded;
use std::alloc::Global;
use trace_book::History;

/// What a session is answered.
#[derive(Drop)]
pub enum Answer {
    /// Its bundle was run: the history, and whether the network has ended. Where it hasn't, the
    /// history has as many entries as it may.
    Ran { history: History, ended: bool },
    /// Its bundle may not run, for this refusal, which is never `Memory`.
    Refused(Refusal),
}

/// The answer of the session of a bundle.
pub fn answer_session(
    alloc: Global,
    bundle: &Bundle,
    seed: Option<u64>,
    limit: u64,
) -> Result<Answer, Memory>
    requires formed { IsFormed (plain bundle.now) }
    requires limit { limit ≤ 4294967295 }
    ensures { IfOk result
        (λ answer. answer_seen answer ≡ answer_of (plain bundle.now) seed limit) }
{
    match accept(alloc, bundle) {
        Ok(()) => run(alloc, bundle, seed, limit),
        Err(Refusal::Memory) => Err(Memory),
        Err(refusal) => Ok(Answer::Refused(refusal)),
    }
}

/// The run of a bundle that may run.
fn run(alloc: Global, bundle: &Bundle, seed: Option<u64>, limit: u64) -> Result<Answer, Memory>
    requires accepted { IsAccepted (plain bundle.now) }
    requires limit { limit ≤ 4294967295 }
    ensures { IfOk result
        (λ answer. answer_seen answer ≡ answer_of (plain bundle.now) seed limit) }
{
    accepted_is_sound();
    let mut net: Net<FlatRole> = Net::start(alloc, bundle, limit)?;
    match run_seeded(&mut net, seed) {
        Ok(_) => Ok(answer_of_run(net)),
        Err(fault) => give_up(net, fault),
    }
}

/// The answer of a net that has run.
fn answer_of_run(net: Net<FlatRole>) -> Answer
    ensures { answer_seen result ≡ Ok (net.history, ended_after net.bundle net.history) }
{
    let ended = net.is_ended();
    let history = net.into_history();
    Answer::Ran { history, ended }
}
