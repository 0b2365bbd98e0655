//! What is known of the locals.
ghost use Rattle.std.specs.Prelude.{◌≡◌, OnOk};
ghost use Rattle.report_rules.specs.Forward.{after_part};
ghost use Rattle.report_rules.specs.TypeMap.{ended as ended_map, widened_at};
ghost use Rattle.rule_work.specs.Moves.{mapped, kept_map, restored, ends_begun, end_added};
ghost use Rattle.rule_state.specs.Work.{work_of};

use crate::state::RuleState;
use local_types::{Change, Point};
use std::alloc::AllocError;
use type_arena::Label;

impl<'a> RuleState<'a> {
    /// What is known is put aside as well.
    pub fn save(&mut self) -> Result<(), AllocError>
        ensures { OnOk result (work_of self.new ≡ kept_map (work_of self.old)) }
    {
        self.saved.push(self.point)?;
        Ok(())
    }

    /// What is known is what was put aside last.
    pub fn restore(&mut self)
        ensures { work_of self.new ≡ restored (work_of self.old) }
    {
        if let Some(point) = self.saved.pop() {
            self.point = point;
        }
    }

    /// What is known after a part, which may have had effects.
    pub fn after(&mut self, has_effects: bool) -> Result<(), AllocError>
        ensures { OnOk result (work_of self.new ≡ mapped (after_part has_effects) (work_of self.old)) }
    {
        if has_effects {
            let map = self
                .types
                .changed(self.alloc, self.point.map, &Change::Widen)?;
            self.point = Point {
                map,
                dead: self.point.dead,
            };
        }
        Ok(())
    }

    /// No run goes on.
    pub fn end(&mut self)
        ensures { work_of self.new ≡ mapped ended_map (work_of self.old) }
    {
        self.point.dead = true;
    }

    /// A list of ends is begun.
    pub fn begin_ends(&mut self) -> Result<(), AllocError>
        ensures { OnOk result (work_of self.new ≡ ends_begun (work_of self.old)) }
    {
        self.ends.push(Vec::new(self.alloc))?;
        Ok(())
    }

    /// What is known comes to the end of the innermost list of ends.
    pub fn add_end(&mut self) -> Result<(), AllocError>
        ensures { OnOk result (work_of self.new ≡ end_added (work_of self.old)) }
    {
        if let Some(mut list) = self.ends.pop() {
            list.push(self.point)?;
            self.ends.push(list)?;
        }
        Ok(())
    }

    /// What is known after fields of a name were written.
    pub fn disturb(&mut self, name: Label) -> Result<(), AllocError>
        ensures { OnOk result (work_of self.new ≡ mapped (widened_at name) (work_of self.old)) }
    {
        let change = Change::WidenAt(name);
        let map = self.types.changed(self.alloc, self.point.map, &change)?;
        self.point = Point {
            map,
            dead: self.point.dead,
        };
        Ok(())
    }
}
