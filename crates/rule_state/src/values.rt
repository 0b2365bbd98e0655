//! The type at hand.
ghost use Rattle.std.specs.Prelude.{◌≡◌, ◌∷◌, [], OnOk};
ghost use Rattle.type_arena.specs.Term.{builtin as builtin_name};
ghost use Rattle.type_normal.specs.HeapFree.{widen as widen_term};
ghost use Rattle.type_normal.specs.Kinds.{text_type as text_term, named_type as named_term};
ghost use Rattle.type_normal.specs.Operations.{union as union_term, meet as meet_term};
ghost use Rattle.type_fields.specs.Plain.{plain_term};
ghost use Rattle.report_rules.specs.Forward.{property as property_term};
ghost use Rattle.rule_work.specs.Moves.{valued, put_aside, taken, made};
ghost use Rattle.rule_state.specs.Work.{work_of};

use crate::state::RuleState;
use std::alloc::AllocError;
use type_arena::Label;
use type_fields::{Plain, has_strings_or_other};

impl<'a> RuleState<'a> {
    /// The values of some kinds.
    pub fn plain(&mut self, kind: Plain) -> Result<(), AllocError>
        ensures { OnOk result (work_of self.new ≡ valued (plain_term kind) (work_of self.old)) }
    {
        let at = self.types.plain(self.alloc, kind)?;
        self.value = at;
        Ok(())
    }

    /// One string.
    pub fn text(&mut self, bytes: Label) -> Result<(), AllocError>
        ensures { OnOk result (work_of self.new ≡ valued (text_term bytes) (work_of self.old)) }
    {
        let at = self.types.text(self.alloc, bytes)?;
        self.value = at;
        Ok(())
    }

    /// One builtin, by its path.
    pub fn builtin(&mut self, path: Label) -> Result<(), AllocError>
        ensures { OnOk result (work_of self.new ≡ valued (named_term (builtin_name path)) (work_of self.old)) }
    {
        let at = self.types.builtin(self.alloc, path)?;
        self.value = at;
        Ok(())
    }

    /// The type at hand is put aside.
    pub fn hold(&mut self) -> Result<(), AllocError>
        ensures { OnOk result (work_of self.new ≡ put_aside (work_of self.old)) }
    {
        self.held.push(self.value)?;
        Ok(())
    }

    /// The type at hand is the last that was put aside.
    pub fn take(&mut self)
        ensures { work_of self.new ≡ taken (work_of self.old) }
    {
        if let Some(at) = self.held.pop() {
            self.value = at;
        }
    }

    /// The type at hand, after tables may have changed.
    pub fn widen(&mut self) -> Result<(), AllocError>
        ensures { OnOk result (work_of self.new ≡ valued (widen_term (work_of self.old).value) (work_of self.old)) }
    {
        let at = self.types.widen(self.alloc, self.value)?;
        self.value = at;
        Ok(())
    }

    /// The values of the last that was put aside, and those of the type at hand.
    pub fn union_held(&mut self) -> Result<(), AllocError>
        ensures { OnOk result (work_of self.new ≡ made union_term (work_of self.old)) }
    {
        if let Some(held) = self.held.pop() {
            let at = self.types.union(self.alloc, held, self.value)?;
            self.value = at;
        }
        Ok(())
    }

    /// The values of the last that was put aside that are of the type at hand too.
    pub fn meet_held(&mut self) -> Result<(), AllocError>
        ensures { OnOk result (work_of self.new ≡ made meet_term (work_of self.old)) }
    {
        if let Some(held) = self.held.pop() {
            let at = self.types.meet(self.alloc, held, self.value)?;
            self.value = at;
        }
        Ok(())
    }

    /// A field of a value of the type at hand: anything, where that may be a string or of no other kind.
    pub fn property(&mut self, name: &Label) -> Result<(), AllocError>
        ensures { OnOk result (work_of self.new ≡ valued (property_term name.now (work_of self.old).value) (work_of self.old)) }
    {
        if has_strings_or_other(self.types.arena(), self.value) {
            return self.plain(Plain::Unknown);
        }
        let at = self.types.field(self.alloc, self.value, name)?;
        self.value = at;
        Ok(())
    }
}
