//! The sink that keeps what it is given, chunk by chunk.
ghost use Rattle.std.specs.Prelude.{◌≤◌, ◌<◌, ◌^◌};

use crate::{List, Sink, SinkFailed};
use std::alloc::{AllocError, Global};

/// A sink that keeps each chunk that it is given, and the bytes that it took. It fails where there
/// is no memory for a chunk, and tells nothing from then on.
#[derive(Debug, Drop)]
pub struct ChunkSink {
    alloc: Global,
    chunks: Vec<List<u8>>,
    bytes: Vec<u8>,
    per_call: usize,
    whole: bool,
    faults: u64,
    ghost moves: { 1 ≤ per_call },
    ghost bounded: { faults < 2 ^ 64 },
}

impl ChunkSink {
    ghost use Rattle.std.specs.Prelude.{◌≡◌, ◌++◌, ◌∷◌, Some, [], IfOk, IfSome, OnOk, length, min, take};
    ghost use Rattle.outside.specs.ChunkSink.{chunks_of, written_to};

    /// A sink that takes at most `per_call` bytes of a chunk, which is at least 1, and was given
    /// nothing so far.
    pub fn new(alloc: Global, per_call: u64) -> ChunkSink
        requires { 1 ≤ per_call }
        ensures chunks { chunks_of result ≡ Some [] }
        ensures written { written_to result ≡ Some [] }
        ensures faults { result.faults ≡ 0 }
    {
        ChunkSink {
            alloc,
            chunks: Vec::new(alloc),
            bytes: Vec::new(alloc),
            per_call: per_call as usize,
            whole: true,
            faults: 0,
        }
    }

    /// The chunks that it was given so far, as long as there was memory for each.
    pub fn chunks(&self) -> &[List<u8>]
        ensures { IfSome (chunks_of self.now) (λ chunks. result.now ≡ chunks) }
    {
        self.chunks.as_slice()
    }

    /// Keeps a chunk and takes a front of it. Says how many bytes that has.
    fn keep(&mut self, chunk: &[u8]) -> Result<usize, AllocError>
        ensures count { IfOk result (λ n. n ≡ min (length chunk.now) self.old.per_call) }
        ensures bytes { IfOk result (λ n.
            self.new.bytes.items ≡ self.old.bytes.items ++ take n chunk.now) }
        ensures chunks { OnOk result
            (self.new.chunks.items ≡ self.old.chunks.items ++ chunk.now ∷ []) }
        ensures per_call { self.new.per_call ≡ self.old.per_call }
        ensures whole { self.new.whole ≡ self.old.whole }
        ensures faults { self.new.faults ≡ self.old.faults }
    {
        let count = chunk.len().min(self.per_call);
        let copy = Vec::from_slice(self.alloc, chunk)?;
        self.bytes.extend_from_slice(&chunk[..count])?;
        self.chunks.push(List::of(copy))?;
        Ok(count)
    }
}

impl Sink for ChunkSink {
    ghost use Rattle.std.specs.Prelude.{◌≡◌, ◌∷◌, [], IfOk, OnErr, OnOk, length, take};
    ghost use Rattle.outside.specs.Cause.{Rose};
    ghost use Rattle.outside.specs.Written.{Appends};
    ghost use Rattle.outside.specs.ChunkSink.{chunks_of, faults_of, tells, written_to};

    ghost written = { written_to };

    ghost chunks = { chunks_of };

    ghost faults = { faults_of };

    ghost bounded = { λ sink. sink.bounded };

    fn write(&mut self, bytes: &[u8]) -> Result<usize, SinkFailed>
        ensures within { IfOk result (λ n. n ≤ length bytes.now) }
        ensures appends { IfOk result (λ n.
            Appends (written_to self.old) (written_to self.new) (take n bytes.now)) }
        ensures given { Appends (chunks_of self.old) (chunks_of self.new) (bytes.now ∷ []) }
        ensures nothing { OnErr result (Appends (written_to self.old) (written_to self.new) []) }
        ensures failed { OnErr result (Rose (faults_of self.old) (faults_of self.new)) }
        ensures idle { result ≡ Ok 0 → 0 < length bytes.now →
            Rose (faults_of self.old) (faults_of self.new) }
        ensures quiet { IfOk result (λ n. 0 < n → faults_of self.new ≡ faults_of self.old) }
        ensures never_falls { faults_of self.old ≤ faults_of self.new }

        // It goes on telling what it is given as long as there is memory.
        ensures whole { OnOk result (tells self.new ≡ tells self.old) }
    {
        match self.keep(bytes) {
            Ok(count) => Ok(count),
            Err(AllocError) => {
                self.whole = false;
                self.faults = self.faults.saturating_add(1);
                Err(SinkFailed)
            }
        }
    }
}
