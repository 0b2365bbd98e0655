ghost use Rattle.std.specs.Prelude.{◌≡◌, ◌<◌, ◌≤◌, ◌^◌, ℕ, List, Option, [], ◌∷◌, IfOk, OnErr, length, take};
ghost use Rattle.outside.specs.Cause.{Rose};
ghost use Rattle.outside.specs.Written.{Appends};

use thiserror::Error;

/// A write that the sink refused. Nothing of it was written.
#[derive(Clone, Copy, Debug, PartialEq, Eq, Error)]
#[error("the output can't be written")]
pub struct SinkFailed;

/// A place that takes bytes.
pub trait Sink {
    /// The bytes written so far, where the sink tells them.
    ghost written: { Self → Option (List ℕ) };

    /// The chunks that it was given so far, from the first on, where the sink tells them.
    ghost chunks: { Self → Option (List (List ℕ)) };

    /// How often the sink has failed. The count never falls.
    ghost faults: { Self → ℕ };

    /// Takes some bytes from the front of a chunk, and says how many.
    fn write(&mut self, bytes: &[u8]) -> Result<usize, SinkFailed>
        ensures within { IfOk result (λ n. n ≤ length bytes.now) }
        ensures appends { IfOk result (λ n.
            Appends (written self.old) (written self.new) (take n bytes.now)) }
        ensures given { Appends (chunks self.old) (chunks self.new) (bytes.now ∷ []) }
        ensures nothing { OnErr result (Appends (written self.old) (written self.new) []) }
        ensures failed { OnErr result (Rose (faults self.old) (faults self.new)) }
        ensures idle { result ≡ Ok 0 → 0 < length bytes.now →
            Rose (faults self.old) (faults self.new) }
        ensures quiet { IfOk result (λ n. 0 < n → faults self.new ≡ faults self.old) }
        ensures never_falls { faults self.old ≤ faults self.new };

    /// The count is below 2^64.
    ghost bounded: { (sink : Self) → faults sink < 2 ^ 64 };
}
