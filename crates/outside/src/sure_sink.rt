//! The sink that never fails.
ghost use Rattle.std.specs.Prelude.{◌≤◌, length};

use crate::{Sink, SinkFailed};

/// A sink that never fails. It keeps nothing: it compares what it is given with the bytes that it
/// expects, and tells its bytes as long as they are a front of these.
#[derive(Debug, Drop)]
pub struct SureSink {
    expected: Vec<u8>,
    count: usize,
    matches: bool,
    ghost within: { count ≤ length expected.items },
}

impl SureSink {
    ghost use Rattle.std.specs.Prelude.{◌≡◌, ◌↔◌, IsTrue, Some, []};
    ghost use Rattle.outside.specs.SureSink.{expected_of, is_next, written_to};

    /// A sink that expects these bytes, and was given none so far.
    pub fn new(expected: Vec<u8>) -> SureSink
        ensures written { written_to result ≡ Some [] }
        ensures expected { expected_of result ≡ expected.items }
    {
        SureSink {
            expected,
            count: 0,
            matches: true,
        }
    }

    /// Whether the sink was given the bytes that it expects, all of them and nothing else.
    pub fn is_complete(&self) -> bool
        ensures { IsTrue result ↔ (written_to self.now ≡ Some (expected_of self.now)) }
    {
        self.matches && self.count == self.expected.len()
    }

    /// Whether the chunk is what comes next.
    fn goes_on(&self, chunk: &[u8]) -> bool
        ensures { result ≡ is_next self.now chunk.now }
    {
        let rest = &self.expected[self.count..];
        self.matches && rest.starts_with(chunk)
    }
}

impl Sink for SureSink {
    ghost use Rattle.std.specs.Prelude.{◌≡◌, ◌<◌, ◌≤◌, None, [], IfOk, OnErr, length, take};
    ghost use Rattle.outside.specs.Cause.{Rose};
    ghost use Rattle.outside.specs.Written.{Appends};
    ghost use Rattle.outside.specs.SureSink.{expected_of, faults_of, told_after, written_to};
    ghost use Rattle.std.proofs.Common.{lit<};

    ghost written = { written_to };

    ghost chunks = { λ _. None };

    ghost faults = { faults_of };

    ghost bounded = { λ _. lit< tt };

    fn write(&mut self, bytes: &[u8]) -> Result<usize, SinkFailed>
        ensures within { IfOk result (λ n. n ≤ length bytes.now) }
        ensures appends { IfOk result (λ n.
            Appends (written_to self.old) (written_to self.new) (take n bytes.now)) }
        ensures nothing { OnErr result (Appends (written_to self.old) (written_to self.new) []) }
        ensures failed { OnErr result (Rose (faults_of self.old) (faults_of self.new)) }
        ensures idle { result ≡ Ok 0 → 0 < length bytes.now →
            Rose (faults_of self.old) (faults_of self.new) }
        ensures quiet { IfOk result (λ n. 0 < n → faults_of self.new ≡ faults_of self.old) }
        ensures never_falls { faults_of self.old ≤ faults_of self.new }

        // Each chunk is taken whole, and compared with what is expected.
        ensures whole { result ≡ Ok (length bytes.now) }
        ensures told { written_to self.new ≡
            told_after (expected_of self.old) (written_to self.old) bytes.now }
        ensures same { expected_of self.new ≡ expected_of self.old }
    {
        if self.goes_on(bytes) {
            self.count += bytes.len();
        } else {
            self.matches = false;
        }
        Ok(bytes.len())
    }
}
