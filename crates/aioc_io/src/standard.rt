//! Readers and writers of `std` as sources and sinks.

ghost use Rattle.std.specs.Prelude.{◌≡◌, ◌<◌, ◌≤◌, IfOk, OnErr};
ghost use Rattle.std.specs.Io.{ReadsAtMost, WritesAtMost};
ghost use Rattle.std.specs.Io.KnownBytes.{ReadConsumes, WriteAppends};
ghost use Rattle.aioc_io.specs.Faults.{Rose, count_after};

use crate::failed::count_fault;
use crate::{Failed, Sink, Source};
use std::io::{Read, Write};

/// A reader of `std` as a source. Each error of the reader counts as a fault.
///
/// It tells the bytes that the reader tells, which are none for standard input.
#[derive(Drop)]
pub struct StdSource<R: Read> {
    inner: R,
    faults: u64,
}

impl<R: Read> StdSource<R> {
    /// Takes no memory.
    pub fn new(inner: R) -> StdSource<R>
        ensures left { (⟦<StdSource<R> as Source>⟧.state result).left ≡ R.remaining inner }
        ensures faults { (⟦<StdSource<R> as Source>⟧.state result).faults ≡ 0 }
    {
        StdSource { inner, faults: 0 }
    }
}

impl<R: Read> Source for StdSource<R> {
    ghost state = { λ source. record { left = R.remaining source.inner; faults = source.faults } };

    fn read(&mut self, into: &mut [u8]) -> Result<usize, Failed>
        ensures faults { let state = ⟦<StdSource<R> as Source>⟧.state in
            (state self.new).faults ≡ count_after result (state self.old).faults }

        // What every source ensures.
        ensures within { ReadsAtMost result into.new }
        ensures bytes { let state = ⟦<StdSource<R> as Source>⟧.state in
            ReadConsumes (state self.old).left (state self.new).left result into.new }
        ensures never_falls { let state = ⟦<StdSource<R> as Source>⟧.state in
            (state self.old).faults ≤ (state self.new).faults }
        ensures rose { let state = ⟦<StdSource<R> as Source>⟧.state in
            OnErr result (Rose (state self.old).faults (state self.new).faults) }
    {
        match self.inner.read(into) {
            Ok(count) => Ok(count),
            Err(_) => Err(count_fault(&mut self.faults)),
        }
    }
}

/// A writer of `std` as a sink. Each error of the writer counts as a fault, and so does a call in
/// which it takes nothing.
///
/// It tells the bytes that the writer tells, which are none for standard output.
#[derive(Drop)]
pub struct StdSink<W: Write> {
    inner: W,
    faults: u64,
}

impl<W: Write> StdSink<W> {
    /// Takes no memory.
    pub fn new(inner: W) -> StdSink<W>
        ensures taken { (⟦<StdSink<W> as Sink>⟧.state result).taken ≡ W.contents inner }
        ensures faults { (⟦<StdSink<W> as Sink>⟧.state result).faults ≡ 0 }
    {
        StdSink { inner, faults: 0 }
    }
}

impl<W: Write> Sink for StdSink<W> {
    ghost state = { λ sink. record { taken = W.contents sink.inner; faults = sink.faults } };

    fn write(&mut self, piece: &[u8]) -> Result<usize, Failed>
        ensures faults { let state = ⟦<StdSink<W> as Sink>⟧.state in
            (state self.new).faults ≡ count_after result (state self.old).faults }

        // What every sink ensures.
        ensures some { IfOk result (λ count. 0 < count) }
        ensures within { WritesAtMost result piece.now }
        ensures bytes { let state = ⟦<StdSink<W> as Sink>⟧.state in
            WriteAppends (state self.old).taken (state self.new).taken result piece.now }
        ensures never_falls { let state = ⟦<StdSink<W> as Sink>⟧.state in (state self.old).faults ≤
            (state self.new).faults }
        ensures rose { let state = ⟦<StdSink<W> as Sink>⟧.state in
            OnErr result (Rose (state self.old).faults (state self.new).faults) }
    {
        match self.inner.write(piece) {
            Ok(count) if count > 0 => Ok(count),
            _ => Err(count_fault(&mut self.faults)),
        }
    }
}
