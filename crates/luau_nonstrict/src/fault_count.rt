//! Counting faults.
ghost use Rattle.std.specs.Prelude.{◌≡◌, ◌^◌, ◌<◌, ◌≤◌};
ghost use Rattle.outside.specs.Cause.{Rose};
ghost use Rattle.outside.specs.Plan.{count_after};

/// How often something has failed. The count stops at `u64::MAX`.
#[derive(Debug, Drop)]
pub struct FaultCount {
    pub count: u64,
    pub ghost bounded: { count < 2 ^ 64 },
}

impl FaultCount {
    /// No fault so far.
    pub fn new() -> FaultCount
        ensures { result.count ≡ 0 }
    {
        FaultCount { count: 0 }
    }

    /// Counts one more fault.
    pub fn rise(&mut self)
        ensures one_more { self.new.count ≡ count_after self.old.count }
        ensures rose { Rose self.old.count self.new.count }
        ensures no_less { self.old.count ≤ self.new.count }
    {
        self.count = self.count.saturating_add(1);
    }
}
