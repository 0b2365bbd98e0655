//! Lists of types.
ghost use Rattle.std.specs.Prelude.{◌≡◌, All, map, OnOk};
ghost use Rattle.type_arena.specs.declared.node.TypeRef.{TypeRef as RefValue};
ghost use Rattle.type_normal.specs.Operations.{union as union_term};
ghost use Rattle.local_types.specs.Entries.{type_of};
ghost use Rattle.report_rules.specs.Forward.{first_or_never};
ghost use Rattle.report_rules.specs.TypeMap.{not_given as not_given_term};
ghost use Rattle.type_fields.specs.Unions.{unions_with};
ghost use Rattle.rule_work.specs.Listed.{used, first_taken};
ghost use Rattle.rule_work.specs.Moves.{valued, list_begun, added, unlisted};
ghost use Rattle.rule_state.specs.Sound.{Stands};
ghost use Rattle.rule_state.specs.Work.{work_of};

use crate::state::RuleState;
use std::alloc::AllocError;
use type_arena::TypeRef;
use type_fields::Plain;

impl<'a> RuleState<'a> {
    /// A list is begun.
    pub fn begin_list(&mut self) -> Result<(), AllocError>
        ensures { OnOk result (work_of self.new ≡ list_begun (work_of self.old)) }
    {
        self.lists.push(Vec::new(self.alloc))?;
        Ok(())
    }

    /// The type at hand comes to the end of the innermost list.
    pub fn add(&mut self) -> Result<(), AllocError>
        ensures { OnOk result (work_of self.new ≡ added (work_of self.old)) }
    {
        if let Some(mut list) = self.lists.pop() {
            list.push(self.value)?;
            self.lists.push(list)?;
        }
        Ok(())
    }

    /// The innermost list is let go.
    pub fn end_list(&mut self)
        ensures { work_of self.new ≡ unlisted (work_of self.old) }
    {
        let _list = self.lists.pop();
    }

    /// The first of the innermost list is at hand and leaves it; without one nil is at hand, or anything if the last value
    /// of the list expands.
    pub fn take_first(&mut self, expanding: bool) -> Result<(), AllocError>
        ensures { OnOk result (work_of self.new ≡ first_taken expanding (work_of self.old)) }
    {
        if let Some(mut list) = self.lists.pop() {
            if list.is_empty() {
                self.lists.push(list)?;
                return self.not_given(expanding);
            }
            self.value = list.remove(0);
            self.lists.push(list)?;
        }
        Ok(())
    }

    /// The first of the innermost list is at hand, or no value without one. The list is let go.
    pub fn first_or_never(&mut self) -> Result<(), AllocError>
        ensures { OnOk result (work_of self.new ≡ used (λ types value. first_or_never types) (work_of self.old)) }
    {
        if let Some(list) = self.lists.pop() {
            match list.first() {
                None => return self.plain(Plain::Never),
                Some(at) => self.value = *at,
            }
        }
        Ok(())
    }

    /// The values of one of the types of the innermost list, or of the one at hand. The list is let go.
    pub fn union_list(&mut self) -> Result<(), AllocError>
        ensures { OnOk result (work_of self.new ≡ used unions_with (work_of self.old)) }
    {
        if let Some(list) = self.lists.pop() {
            self.union_all(list)?;
        }
        Ok(())
    }

    // The type of a name that is given no value.
    fn not_given(&mut self, expanding: bool) -> Result<(), AllocError>
        ensures { OnOk result (work_of self.new ≡ valued (not_given_term expanding) (work_of self.old)) }
    {
        if expanding {
            self.plain(Plain::Unknown)
        } else {
            self.plain(Plain::Nil)
        }
    }

    // The values of one of some types, or of the one at hand.
    fn union_all(&mut self, mut list: Vec<TypeRef>) -> Result<(), AllocError>
        requires { All (Stands self.old.types self.old.outside.items) list.items }
        ensures { OnOk result (work_of self.new ≡ valued (unions_with (map (type_of self.old.types) list.items) (work_of self.old).value) (work_of self.old)) }
    {
        while let Some(next) = list.pop() {
            self.union_with(next)?;
        }
        Ok(())
    }

    // The values of a type, or of the one at hand. What stood stands, and means what it meant.
    fn union_with(&mut self, at: TypeRef) -> Result<(), AllocError>
        requires { Stands self.old.types self.old.outside.items at }
        ensures work { OnOk result (work_of self.new ≡ valued (union_term (type_of self.old.types at) (work_of self.old).value) (work_of self.old)) }
        ensures stands { (other : RefValue) → Stands self.old.types self.old.outside.items other → Stands self.new.types self.new.outside.items other }
        ensures means { (other : RefValue) → Stands self.old.types self.old.outside.items other → type_of self.new.types other ≡ type_of self.old.types other }
    {
        let at = self.types.union(self.alloc, at, self.value)?;
        self.value = at;
        Ok(())
    }
}
