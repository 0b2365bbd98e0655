//! The types of table constructors.
ghost use Rattle.std.specs.Prelude.{◌≡◌, OnOk};
ghost use Rattle.rule_work.specs.Tables.{rowed};
ghost use Rattle.rule_state.specs.Work.{work_of};

use crate::state::RuleState;
use std::alloc::AllocError;
use type_arena::Label;

impl<'a> RuleState<'a> {
    /// The tables whose fields have these names, in the order of the text, and the types of the innermost list, which is used
    /// up; of one name the last counts.
    pub fn row(&mut self, names: Vec<Label>) -> Result<(), AllocError>
        ensures { OnOk result (work_of self.new ≡ rowed names.items (work_of self.old)) }
    {
        if let Some(mut types) = self.lists.pop() {
            types.reverse();
            let at = self.types.row_of(self.alloc, names, types.as_slice())?;
            self.value = at;
        }
        Ok(())
    }
}
