//! The forms in memory whose calls fail as planned.
ghost use Rattle.std.specs.Prelude.{◌≡◌, ◌+◌, ◌-◌, ◌<◌, ◌≤◌, ◌^◌, ◌++◌, if◌then◌else◌, length, vec_capacity};
ghost use Rattle.outside.specs.Plan.{count_after, is_fault, is_listed, turn_of};

/// Which calls fail, by their numbers from 0, how many were made and how many were faults.
#[derive(Debug, Drop)]
pub(crate) struct Plan {
    pub failing: Vec<u64>,
    pub calls: u64,
    pub faults: u64,
    pub ghost bounded: { faults < 2 ^ 64 },
}

impl Plan {
    pub fn new(failing: Vec<u64>) -> Plan
        ensures failing { result.failing ≡ failing }
        ensures calls { result.calls ≡ 0 }
        ensures faults { result.faults ≡ 0 }
    {
        Plan {
            failing,
            calls: 0,
            faults: 0,
        }
    }

    /// Whether the next call is planned to fail.
    pub fn fails_next(&self) -> bool
        ensures { result ≡ is_listed self.now.failing.items self.now.calls }
    {
        self.failing.contains(&self.calls)
    }

    /// Counts a call, and a fault where it is one.
    pub fn count(&mut self, fault: bool)
        ensures failing { self.new.failing ≡ self.old.failing }
        ensures calls { self.new.calls ≡ count_after self.old.calls }
        ensures faults { self.new.faults ≡
            (if fault then count_after self.old.faults else self.old.faults) }
        ensures never_falls { self.old.faults ≤ self.new.faults }
    {
        self.calls = self.calls.saturating_add(1);
        if fault {
            self.faults = self.faults.saturating_add(1);
        }
    }
}

/// What a call of a sink does.
#[derive(Clone, Copy, Debug, PartialEq, Eq)]
pub(crate) enum Turn {
    /// It fails.
    Fails,
    /// It takes nothing.
    Idles,
    /// It takes so many bytes.
    Takes(usize),
}

impl Turn {
    /// Whether the call is a fault.
    pub fn is_fault(self) -> bool
        ensures { result ≡ is_fault self }
    {
        match self {
            Turn::Fails | Turn::Idles => true,
            Turn::Takes(_) => false,
        }
    }
}

/// What a call does that is planned so, would take `taken` bytes and has room for `left`.
pub(crate) fn make_turn(fails: bool, idles: bool, taken: usize, left: usize) -> Turn
    ensures { result ≡ turn_of fails idles taken left }
{
    if fails {
        Turn::Fails
    } else if idles {
        Turn::Idles
    } else if taken <= left {
        Turn::Takes(taken)
    } else {
        Turn::Fails
    }
}

/// Appends a chunk for which there is room. Takes no memory.
pub(crate) fn append_reserved(bytes: &mut Vec<u8>, chunk: &[u8])
    requires { length bytes.old.items + length chunk.now ≤ vec_capacity bytes.old }
    ensures items { bytes.new.items ≡ bytes.old.items ++ chunk.now }
    ensures capacity { vec_capacity bytes.new ≡ vec_capacity bytes.old }
{
    for byte in chunk {
        bytes.push_reserved(*byte);
    }
}
