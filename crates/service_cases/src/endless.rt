//! A source that never ends.

ghost use Rattle.std.specs.Prelude.{None};

use crate::devices::{Devices, Outcome, serve_from};
use aioc_io::{Failed, Source, SureSource};
use case_tables::Problem;
use std::alloc::Global;

// A source of given bytes and of spaces behind them, without an end. It tells no bytes.
#[derive(Drop)]
struct Endless {
    front: SureSource,
}

impl Source for Endless {
    ghost state = { λ _. record { left = None; faults = 0 } };

    fn read(&mut self, into: &mut [u8]) -> Result<usize, Failed> {
        let count = self.front.read(into)?;
        if count > 0 {
            return Ok(count);
        }
        into.fill(b' ');
        Ok(into.len())
    }
}

/// The top call with these words, over a source of this text and of spaces without an end.
pub fn serve_endless(alloc: Global, words: &[Vec<u8>], text: &[u8]) -> Result<Outcome, Problem> {
    let mut source = Endless {
        front: SureSource::new(text.to_vec(alloc)?),
    };
    serve_from(alloc, words, &mut source, &Devices::usual())
}
