//! `gen`: a made bundle, its run, and a line that counts them.

ghost use Rattle.std.specs.Prelude.{◌≡◌, ◌≤◌, ◌++◌, decimal, IfOk, OnOk};
ghost use Rattle.dioc_terms.specs.Plain.{plain};
ghost use Rattle.dioc_terms.specs.Terms.{nodes, term};
ghost use Rattle.load_gen.specs.Made.{made};
ghost use Rattle.net_core.specs.Nets.{network_of};
ghost use Rattle.rule_checks.specs.Refusals.{IsAccepted};
ghost use Rattle.aioc_top.specs.Replies.{gen_line, gen_reply, line_of_text, reply_of};

use crate::commands::step::end_of;
use crate::replies::Written;
use dioc_terms::{Bundle, Memory, give_up};
use flat_role::FlatRole;
use index_marks::nodes;
use load_gen::make;
use net_core::Net;
use net_laws::{accepted_is_sound, runs_are_sound};
use schedule::run_seeded;
use std::alloc::Global;
use text_pieces::{write_bytes, write_number};

/// How many entries a run has at most, where no other number is asked for.
const USUAL_STEPS: u64 = 20_000;

/// Makes the bundle of a number and a size from 1 to 400, runs it as `step` does, and counts its
/// roles, its nodes, the entries of its run, the visible ones among them, and its updates. That the
/// choreography plays the run holds of every run, so the line always says it.
pub fn generate(alloc: Global, number: u64, size: u32) -> Result<Written, Memory>
    requires least { 1 ≤ size }
    requires most { size ≤ 400 }
    ensures { IfOk result (λ written. reply_of written ≡ gen_reply number size) }
{
    let bundle = make(alloc, number, size)?;
    let written = run_made(alloc, number, size, &bundle);
    drop(bundle);
    written
}

// Runs the bundle that was made of these numbers.
fn run_made(alloc: Global, number: u64, size: u32, bundle: &Bundle) -> Result<Written, Memory>
    requires made { plain bundle.now ≡ made number size }
    requires accepted { IsAccepted (plain bundle.now) }
    ensures { IfOk result (λ written. reply_of written ≡ gen_reply number size) }
{
    accepted_is_sound();
    runs_are_sound();
    let mut net: Net<FlatRole> = Net::start(alloc, bundle, USUAL_STEPS)?;
    match run_seeded(&mut net, None) {
        Ok(finish) => {
            let line = make_line(alloc, number, size, bundle, &net);
            drop(net);
            Ok(Written {
                end: end_of(finish),
                text: line?,
            })
        }
        Err(fault) => give_up(net, fault),
    }
}

// The line of a made bundle and its run.
fn make_line(
    alloc: Global,
    number: u64,
    size: u32,
    bundle: &Bundle,
    net: &Net<FlatRole>,
) -> Result<Vec<u8>, Memory>
    requires few { nodes (term bundle.now.choreo) ≤ 4294967295 }
    ensures { IfOk result (λ line. line.items ≡ line_of_text (gen_line number size
        (plain bundle.now) net.now.history (network_of net.now).updates)) }
{
    let history = net.history();
    let mut line = Vec::new(alloc);
    write_count(b"gen ", number, &mut line)?;
    write_count(b" ", size as u64, &mut line)?;
    write_count(b": roles ", bundle.cast.len() as u64, &mut line)?;
    write_count(b", nodes ", nodes(&bundle.choreo) as u64, &mut line)?;
    write_count(b", entries ", history.len(), &mut line)?;
    write_count(b", visible ", history.visible_len(), &mut line)?;
    write_count(b", updates ", net.updates() as u64, &mut line)?;
    write_bytes(b", played yes\n", &mut line)?;
    Ok(line)
}

// Appends a number behind what it counts.
fn write_count(what: &[u8], count: u64, out: &mut Vec<u8>) -> Result<(), Memory>
    ensures { OnOk result (out.new.items ≡ out.old.items ++ (what.now ++ decimal count)) }
{
    write_bytes(what, out)?;
    write_number(count, out)
}
