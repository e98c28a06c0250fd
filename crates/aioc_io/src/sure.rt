//! A source and a sink that never fail.

ghost use Rattle.std.specs.Prelude.{◌≡◌, ◌+◌, ◌≤◌, min, length, take, None, Some, Ok, vec_len};
ghost use Rattle.std.specs.Io.{ReadsAtMost};
ghost use Rattle.std.specs.Io.KnownBytes.{ReadConsumes};
ghost use Rattle.aioc_io.specs.Faults.{last_count};

use crate::{Failed, Sink, Source};

/// A source of given bytes that never fails.
#[derive(Drop)]
pub struct SureSource {
    bytes: Vec<u8>,
    at: usize,
    ghost within: { at ≤ vec_len bytes },
}

impl SureSource {
    ghost use Rattle.aioc_io.specs.Sure.{bytes_left};

    /// All the bytes are left. This takes no memory.
    pub fn new(bytes: Vec<u8>) -> SureSource
        ensures left { (⟦<SureSource as Source>⟧.state result).left ≡ Some bytes.items }
        ensures faults { (⟦<SureSource as Source>⟧.state result).faults ≡ 0 }
    {
        SureSource { bytes, at: 0 }
    }
}

impl Source for SureSource {
    ghost use Rattle.aioc_io.specs.Sure.{bytes_left};

    ghost state = { λ source. record { left = Some (bytes_left source); faults = 0 } };

    /// Moves as many bytes as are left and fit.
    fn read(&mut self, into: &mut [u8]) -> Result<usize, Failed>
        ensures count { result ≡ Ok (min (length (bytes_left self.old)) (length into.old)) }
        ensures within { ReadsAtMost result into.new }
        ensures bytes { ReadConsumes (Some (bytes_left self.old)) (Some (bytes_left self.new))
            result into.new }
    {
        let count = copy_front(&self.bytes[self.at..], into);
        self.at += count;
        Ok(count)
    }
}

// Copies as many bytes as both have, from front to front, and answers their number.
fn copy_front(from: &[u8], into: &mut [u8]) -> usize
    ensures count { result ≡ min (length from.now) (length into.old) }
    ensures copied { take result into.new ≡ take result from.now }
{
    let count = from.len().min(into.len());
    into[..count].copy_from_slice(&from[..count]);
    count
}

/// A sink that takes everything, never fails, and keeps only the number of bytes.
#[derive(Clone, Copy, Default)]
pub struct SureSink {
    count: u64,
}

impl SureSink {
    ghost use Rattle.aioc_io.specs.Sure.{number_taken};

    /// No byte was taken. This takes no memory.
    pub fn new() -> SureSink
        ensures number { number_taken result ≡ 0 }
        ensures faults { (⟦<SureSink as Sink>⟧.state result).faults ≡ 0 }
    {
        SureSink { count: 0 }
    }
}

impl Sink for SureSink {
    ghost use Rattle.aioc_io.specs.Sure.{number_taken};

    ghost state = { λ _. record { taken = None; faults = 0 } };

    /// Takes the whole piece.
    fn write(&mut self, piece: &[u8]) -> Result<usize, Failed>
        ensures whole { result ≡ Ok (length piece.now) }
        ensures number { number_taken self.new ≡ min (number_taken self.old + length piece.now)
            last_count }
    {
        self.count = self.count.saturating_add(piece.len() as u64);
        Ok(piece.len())
    }
}
