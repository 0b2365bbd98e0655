//! The type at hand, by what is known of its place.
ghost use Rattle.std.specs.Prelude.{◌≡◌, option_map, OnOk};
ghost use Rattle.module_reading.specs.Names.{meaning_of};
ghost use Rattle.type_normal.specs.Cut.{cut_up as cut_up_term};
ghost use Rattle.report_rules.specs.After.{where_live};
ghost use Rattle.report_rules.specs.Forward.{held as held_term, builtin_or as builtin_or_term};
ghost use Rattle.rule_work.specs.Moves.{valued};
ghost use Rattle.rule_state.specs.Work.{work_of};

use crate::state::RuleState;
use luau_scope::Use;
use std::alloc::AllocError;
use type_arena::Label;
use type_fields::Plain;

impl<'a> RuleState<'a> {
    /// The type of a value that is held while other parts are evaluated.
    pub fn keep(&mut self, effects_later: bool) -> Result<(), AllocError>
        ensures { OnOk result (work_of self.new ≡ valued (held_term effects_later (work_of self.old).value) (work_of self.old)) }
    {
        if effects_later {
            return self.widen();
        }
        Ok(())
    }

    /// The type at hand itself, or a larger one where it is large.
    pub fn cut_up(&mut self) -> Result<(), AllocError>
        ensures { OnOk result (work_of self.new ≡ valued (cut_up_term (work_of self.old).value) (work_of self.old)) }
    {
        let at = self.types.cut_up(self.alloc, self.value)?;
        self.value = at;
        Ok(())
    }

    /// The type at hand where a run may come, and never where none does.
    pub fn live_only(&mut self) -> Result<(), AllocError>
        ensures { OnOk result (work_of self.new ≡ valued (where_live (work_of self.old).map (work_of self.old).value) (work_of self.old)) }
    {
        if self.point.dead {
            return self.plain(Plain::Never);
        }
        Ok(())
    }

    /// One builtin, where an expression is its path, and the type at hand otherwise.
    pub fn builtin_or(&mut self, found: Option<&Use>) -> Result<(), AllocError>
        ensures { OnOk result (work_of self.new ≡ valued (builtin_or_term (option_map (λ u. meaning_of u.now) found.entry) (work_of self.old).value) (work_of self.old)) }
    {
        match found {
            Some(Use::Builtin(path)) => {
                let label = Label::of(Vec::from_slice(self.alloc, path.as_slice())?);
                self.builtin(label)
            }
            _ => Ok(()),
        }
    }
}
