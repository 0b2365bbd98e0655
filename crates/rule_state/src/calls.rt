//! The results of calls.
ghost use Rattle.std.specs.Prelude.{◌≡◌, Some, All, Contains, IsTrue, OnOk, map, option_map};
ghost use Rattle.type_arena.specs.Meaning.{term_of};
ghost use Rattle.type_arena.specs.Store.{has as has_node};
ghost use Rattle.type_arena.specs.Term.{Term, builtin as builtin_name};
ghost use Rattle.type_arena.specs.declared.node.TypeRef.{TypeRef as RefValue};
ghost use Rattle.type_normal.specs.Field.{frozen_rows as frozen_term};
ghost use Rattle.type_normal.specs.Kinds.{nil_type, exactly_one_function as one_function};
ghost use Rattle.type_normal.specs.Operations.{union as union_term};
ghost use Rattle.local_types.specs.Entries.{arenas_of, type_of};
ghost use Rattle.type_decl.specs.Tables.{alone, refs_in};
ghost use Rattle.report_rules.specs.Forward.{first_result};
ghost use Rattle.rule_work.specs.Calls.{call_term, called, result_of_one};
ghost use Rattle.rule_state.specs.Calls.{given_type, refs_given, IsDeclared};
ghost use Rattle.rule_work.specs.Moves.{valued};
ghost use Rattle.rule_state.specs.Sound.{Stands};
ghost use Rattle.rule_state.specs.Work.{builtins_in, work_of};

use crate::state::RuleState;
use local_types::LocalTypes;
use luau_tree::ExprId;
use std::alloc::AllocError;
use type_arena::{FnName, Label, TypeRef};
use type_decl::{Sig, SigTable};
use type_fields::{Plain, exactly_one_function};

/// What a call gives: anything, the frozen ones among the tables of its first argument, a type, a type or nil, or nil.
#[derive(Clone, Copy)]
pub(crate) enum Gives {
    Anything,
    Frozen,
    Exactly(TypeRef),
    OrNil(TypeRef),
    Nil,
}

impl<'a> RuleState<'a> {
    /// The result of a call, by its number: the callee was put aside last, and the type at hand is that of the first argument.
    pub fn call(&mut self, id: ExprId) -> Result<(), AllocError>
        ensures { OnOk result (work_of self.new ≡ called id.0 (work_of self.old)) }
    {
        if let Some(callee) = self.held.pop() {
            let gives = self.gives_at(id, callee);
            self.given(gives)?;
        }
        Ok(())
    }

    // What the call with a number gives: a static require what its module does, another call what the callee does.
    fn gives_at(&self, id: ExprId, callee: TypeRef) -> Gives
        requires { IsTrue (has_node (arenas_of self.now.types) callee) }
        ensures result { (first : Term) → given_type (type_of self.now.types) result first ≡ call_term (work_of self.now).around id.0 (type_of self.now.types callee) first }
        ensures stand { All (Stands self.now.types self.now.outside.items) (refs_given result) }
    {
        match self.imports.get(&id.0) {
            Some(at) => Gives::Exactly(*at),
            None => gives_of(&self.types, self.table, callee),
        }
    }

    // The type at hand is what a call gives that is called with it.
    fn given(&mut self, gives: Gives) -> Result<(), AllocError>
        requires { All (Stands self.old.types self.old.outside.items) (refs_given gives) }
        ensures { OnOk result (work_of self.new ≡ valued (given_type (type_of self.old.types) gives (work_of self.old).value) (work_of self.old)) }
    {
        match gives {
            Gives::Anything => self.plain(Plain::Unknown),
            Gives::Frozen => self.freeze(),
            Gives::Exactly(at) => {
                self.value = at;
                Ok(())
            }
            Gives::OrNil(at) => self.or_nil(at),
            Gives::Nil => self.plain(Plain::Nil),
        }
    }

    // The values of a type, and nil.
    fn or_nil(&mut self, at: TypeRef) -> Result<(), AllocError>
        requires { Stands self.old.types self.old.outside.items at }
        ensures { OnOk result (work_of self.new ≡ valued (union_term (type_of self.old.types at) nil_type) (work_of self.old)) }
    {
        let nil = self.types.plain(self.alloc, Plain::Nil)?;
        let both = self.types.union(self.alloc, at, nil)?;
        self.value = both;
        Ok(())
    }

    // The frozen ones among the tables of the type at hand.
    fn freeze(&mut self) -> Result<(), AllocError>
        ensures { OnOk result (work_of self.new ≡ valued (frozen_term (work_of self.old).value) (work_of self.old)) }
    {
        let at = self.types.frozen_rows(self.alloc, self.value)?;
        self.value = at;
        Ok(())
    }
}

/// What a call of the values of a type gives.
pub(crate) fn gives_of(types: &LocalTypes<'_>, table: &SigTable, at: TypeRef) -> Gives
    requires { IsTrue (has_node (arenas_of types.now) at) }
    ensures result { (first : Term) → given_type (term_of (alone table.now.arena)) result first ≡ result_of_one (builtins_in table.now) (one_function (type_of types.now at)) first }
    ensures among { All (IsDeclared table.now.sigs) (refs_given result) }
{
    match exactly_one_function(types.arena(), at) {
        Some(FnName::Builtin(path)) => gives_by(table, path),
        _ => Gives::Anything,
    }
}

// What a call of a builtin gives.
fn gives_by(table: &SigTable, path: &Label) -> Gives
    ensures result { (first : Term) → given_type (term_of (alone table.now.arena)) result first ≡ result_of_one (builtins_in table.now) (Some (builtin_name path.now)) first }
    ensures among { All (IsDeclared table.now.sigs) (refs_given result) }
{
    match table.get(path.as_slice()) {
        None => Gives::Anything,
        Some(sig) => {
            if path.as_slice() == b"table.freeze".as_slice() {
                Gives::Frozen
            } else {
                first_of(sig)
            }
        }
    }
}

// What the results of a signature begin with.
fn first_of(sig: &Sig) -> Gives
    ensures result { (means : RefValue → Term) (first : Term) → given_type means result first ≡ first_result (map means sig.now.results) (option_map means sig.now.more) }
    ensures among { All (Contains (refs_in sig.now)) (refs_given result) }
{
    match sig.results.as_slice().first() {
        Some(at) => Gives::Exactly(*at),
        None => match sig.more {
            Some(at) => Gives::OrNil(at),
            None => Gives::Nil,
        },
    }
}
