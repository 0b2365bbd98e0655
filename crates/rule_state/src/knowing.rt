//! What is known of one local.
ghost use Rattle.std.specs.Prelude.{◌≡◌, OnOk};
ghost use Rattle.type_arena.specs.Term.{literal as literal_name};
ghost use Rattle.type_normal.specs.Field.{with_row_field as with_field_term};
ghost use Rattle.type_normal.specs.HeapFree.{widen_at as widen_at_term};
ghost use Rattle.type_normal.specs.Kinds.{named_type as named_term};
ghost use Rattle.rule_work.specs.Moves.{valued, mapped, known_of, set_as};
ghost use Rattle.rule_state.specs.Work.{work_of};

use crate::state::RuleState;
use local_types::Point;
use luau_tree::{FnId, LocalId};
use std::alloc::AllocError;
use type_arena::Label;
use type_fields::Plain;
use type_normal::is_empty;

impl<'a> RuleState<'a> {
    /// What is known of a local: nothing, where it is loose.
    pub fn local(&mut self, local: LocalId, is_loose: bool) -> Result<(), AllocError>
        ensures { OnOk result (work_of self.new ≡ valued (known_of is_loose local.0 (work_of self.old).map) (work_of self.old)) }
    {
        if is_loose {
            self.plain(Plain::Unknown)
        } else {
            self.value = self.types.get(self.point.map, local.0);
            Ok(())
        }
    }

    /// A local gets the type at hand, cut up. Without values for a local that isn't loose no run goes on.
    pub fn set(&mut self, local: LocalId, is_loose: bool) -> Result<(), AllocError>
        ensures { OnOk result (work_of self.new ≡ mapped (set_as is_loose local.0 (work_of self.old).value) (work_of self.old)) }
    {
        let empty = is_empty(self.types.arena(), self.value);
        let at = self.types.cut_up(self.alloc, self.value)?;
        let map = self.types.put(self.point.map, local.0, at)?;
        let dead = self.point.dead | (!is_loose & empty);
        self.point = Point { map, dead };
        Ok(())
    }

    /// The functions of a literal, by the number of its body.
    pub fn literal(&mut self, body: FnId) -> Result<(), AllocError>
        ensures { OnOk result (work_of self.new ≡ valued (named_term (literal_name (work_of self.old).around.home body.0)) (work_of self.old)) }
    {
        let at = self.types.literal(self.alloc, self.home, body.0)?;
        self.value = at;
        Ok(())
    }

    /// The tables of a local after a field was written with a value of the type at hand.
    pub fn with_field(&mut self, local: LocalId, name: &Label) -> Result<(), AllocError>
        ensures { OnOk result (work_of self.new ≡ valued (with_field_term name.now (widen_at_term name.now (work_of self.old).value) ((work_of self.old).map.entry local.0)) (work_of self.old)) }
    {
        let value = self.types.widen_at(self.alloc, self.value, name)?;
        let tables = self.types.get(self.point.map, local.0);
        let at = self.types.with_row_field(self.alloc, tables, name, value)?;
        self.value = at;
        Ok(())
    }
}
