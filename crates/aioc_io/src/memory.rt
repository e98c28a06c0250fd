//! A source and a sink in memory, whose calls fail as planned.

ghost use Rattle.std.specs.Prelude.{◌≡◌, ◌<◌, ◌≤◌, ◌↔◌, [], min, length, Some, IsErr, IfOk, OnErr};
ghost use Rattle.std.specs.Io.{ReadsAtMost, WritesAtMost};
ghost use Rattle.std.specs.Io.KnownBytes.{ReadConsumes, WriteAppends};
ghost use Rattle.aioc_io.specs.Faults.{Rose, count_after};

use crate::failed::count_fault;
use crate::plan::Plan;
use crate::{Failed, Sink, Source, SureSource};
use std::alloc::Global;

/// A source of given bytes whose calls fail as planned.
#[derive(Drop)]
pub struct MemSource {
    inner: SureSource,
    plan: Plan,
}

impl MemSource {
    ghost use Rattle.aioc_io.specs.Memory.{source_plan};
    ghost use Rattle.aioc_io.specs.Plan.{IsNewPlan};

    /// A call moves at most `most` bytes. The calls whose numbers are in `fails` fail, where the
    /// first call has the number 1. This takes no memory.
    pub fn new(bytes: Vec<u8>, most: usize, fails: Vec<u64>) -> MemSource
        requires { 1 ≤ most }
        ensures left { (⟦<MemSource as Source>⟧.state result).left ≡ Some bytes.items }
        ensures faults { (⟦<MemSource as Source>⟧.state result).faults ≡ 0 }
        ensures plan { IsNewPlan (source_plan result) most fails.items }
    {
        MemSource {
            inner: SureSource::new(bytes),
            plan: Plan::new(most, fails),
        }
    }
}

impl Source for MemSource {
    ghost use Rattle.aioc_io.specs.Memory.{source_plan, source_state, bytes_to_read};
    ghost use Rattle.aioc_io.specs.Plan.{FailsNext, OneCall};

    ghost state = { source_state };

    fn read(&mut self, into: &mut [u8]) -> Result<usize, Failed>
        ensures planned { IsErr result ↔ FailsNext (source_plan self.old) }
        ensures call { OneCall (source_plan self.old) (source_plan self.new) }
        ensures count { IfOk result (λ count. count
            ≡ min (length (bytes_to_read self.old))
            (min (source_plan self.old).most (length into.old))) }
        ensures faults { (source_plan self.new).faults ≡ count_after result
            (source_plan self.old).faults }

        // What every source ensures.
        ensures within { ReadsAtMost result into.new }
        ensures bytes { ReadConsumes (Some (bytes_to_read self.old)) (Some (bytes_to_read self.new))
            result into.new }
        ensures never_falls { (source_plan self.old).faults ≤ (source_plan self.new).faults }
        ensures rose { OnErr result
            (Rose (source_plan self.old).faults (source_plan self.new).faults) }
    {
        self.plan.begin_call()?;
        let most = self.plan.most.min(into.len());
        self.inner.read(&mut into[..most])
    }
}

/// A sink that keeps what it takes and whose calls fail as planned.
#[derive(Drop)]
pub struct MemSink {
    taken: Vec<u8>,
    plan: Plan,
}

impl MemSink {
    ghost use Rattle.aioc_io.specs.Memory.{sink_plan};
    ghost use Rattle.aioc_io.specs.Plan.{IsNewPlan};

    /// A call takes at most `most` bytes. The calls whose numbers are in `fails` fail, where the
    /// first call has the number 1, and so does each that finds no memory. This takes none yet.
    pub fn new(alloc: Global, most: usize, fails: Vec<u64>) -> MemSink
        requires { 1 ≤ most }
        ensures taken { (⟦<MemSink as Sink>⟧.state result).taken ≡ Some [] }
        ensures faults { (⟦<MemSink as Sink>⟧.state result).faults ≡ 0 }
        ensures plan { IsNewPlan (sink_plan result) most fails.items }
    {
        MemSink {
            taken: Vec::new(alloc),
            plan: Plan::new(most, fails),
        }
    }

    /// The bytes that were taken.
    pub fn taken(&self) -> &[u8]
        ensures { (⟦<MemSink as Sink>⟧.state self.now).taken ≡ Some result.now }
    {
        &self.taken
    }
}

impl Sink for MemSink {
    ghost use Rattle.aioc_io.specs.Memory.{sink_plan, sink_state, bytes_taken};
    ghost use Rattle.aioc_io.specs.Plan.{FailsNext, OneCall};

    ghost state = { sink_state };

    fn write(&mut self, piece: &[u8]) -> Result<usize, Failed>
        requires { 0 < length piece.now }
        ensures planned { FailsNext (sink_plan self.old) → IsErr result }
        ensures call { OneCall (sink_plan self.old) (sink_plan self.new) }
        ensures count { IfOk result
            (λ count. count ≡ min (sink_plan self.old).most (length piece.now)) }
        ensures faults { (sink_plan self.new).faults ≡ count_after result
            (sink_plan self.old).faults }

        // What every sink ensures.
        ensures some { IfOk result (λ count. 0 < count) }
        ensures within { WritesAtMost result piece.now }
        ensures bytes { WriteAppends (Some (bytes_taken self.old)) (Some (bytes_taken self.new))
            result piece.now }
        ensures never_falls { (sink_plan self.old).faults ≤ (sink_plan self.new).faults }
        ensures rose { OnErr result (Rose (sink_plan self.old).faults (sink_plan self.new).faults) }
    {
        self.plan.begin_call()?;
        let count = self.plan.most.min(piece.len());
        match self.taken.extend_from_slice(&piece[..count]) {
            Ok(()) => Ok(count),
            Err(_) => Err(count_fault(&mut self.plan.faults)),
        }
    }
}
