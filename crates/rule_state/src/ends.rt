//! The ends of branches.
ghost use Rattle.std.specs.Prelude.{◌≡◌, OnOk};
ghost use Rattle.rule_work.specs.Branches.{ends_joined};
ghost use Rattle.rule_state.specs.Work.{work_of};

use crate::state::RuleState;
use std::alloc::AllocError;

impl<'a> RuleState<'a> {
    /// What is known after the branches with the innermost ends, which are let go.
    pub fn join_ends(&mut self) -> Result<(), AllocError>
        ensures { OnOk result (work_of self.new ≡ ends_joined (work_of self.old)) }
    {
        if let Some(mut ends) = self.ends.pop() {
            ends.reverse();
            let point = self.types.joined(self.alloc, ends.as_slice())?;
            self.point = point;
        }
        Ok(())
    }
}
