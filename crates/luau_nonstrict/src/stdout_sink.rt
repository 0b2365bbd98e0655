//! The standard output.
ghost use Rattle.std.specs.Prelude.{◌≡◌, ◌≤◌, IfOk, length};
ghost use Rattle.std.specs.Io.KnownBytes.{WriteAppends};

use crate::fault_count::FaultCount;
use outside::{Sink, SinkFailed};
use std::io;
use std::io::{ErrorKind, Write};

/// How often one write may be interrupted.
const TRIES: u32 = 4096;

/// A writer, as that to the standard output, as a sink. It tells no bytes.
#[derive(Drop)]
pub struct StdoutSink<W> {
    out: W,
    faults: FaultCount,
}

impl<W> StdoutSink<W> {
    /// What this writer takes, with no fault so far.
    pub fn new(out: W) -> StdoutSink<W>
        ensures { result.faults.count ≡ 0 }
    {
        StdoutSink {
            out,
            faults: FaultCount::new(),
        }
    }
}

impl<W: Write> Sink for StdoutSink<W> {
    ghost use Rattle.std.specs.Prelude.{◌<◌, None, OnErr};
    ghost use Rattle.outside.specs.Cause.{Rose};
    ghost use Rattle.outside.specs.Plan.{count_after};

    ghost written = { λ _. None };

    ghost chunks = { λ _. None };

    ghost faults = { λ sink. sink.faults.count };

    ghost bounded = { λ sink. sink.faults.bounded };

    fn write(&mut self, bytes: &[u8]) -> Result<usize, SinkFailed>
        ensures within { IfOk result (λ n. n ≤ length bytes.now) }
        ensures failed { OnErr result (Rose self.old.faults.count self.new.faults.count) }
        ensures idle { result ≡ Ok 0 → 0 < length bytes.now →
            Rose self.old.faults.count self.new.faults.count }
        ensures quiet { IfOk result (λ n. 0 < n → self.new.faults.count ≡ self.old.faults.count) }
        ensures never_falls { self.old.faults.count ≤ self.new.faults.count }

        // The writer holds what it took, once, and nothing more where it fails.
        ensures held { WriteAppends (W.contents self.old.out) (W.contents self.new.out) result
            bytes.now }

        // A failure counts once, and so does a write that takes nothing.
        ensures once { OnErr result (self.new.faults.count ≡ count_after self.old.faults.count) }
        ensures once_idle { result ≡ Ok 0 →
            self.new.faults.count ≡ count_after self.old.faults.count }
    {
        let written = write_some(&mut self.out, bytes);
        if !matches!(written, Ok(1..)) {
            self.faults.rise();
        }
        written.map_err(|_| SinkFailed)
    }
}

/// Writes some of the bytes and says how many. An interrupted write is tried again.
fn write_some<W: Write>(out: &mut W, bytes: &[u8]) -> io::Result<usize>
    ensures within { IfOk result (λ n. n ≤ length bytes.now) }
    ensures held { WriteAppends (W.contents out.old) (W.contents out.new) result bytes.now }
{
    for _ in 0..TRIES {
        match out.write(bytes) {
            Err(e) if e.kind() == ErrorKind::Interrupted => {}
            answer => return answer,
        }
    }
    Err(io::Error::from(ErrorKind::Interrupted))
}

#[cfg(test)]
mod tests;
