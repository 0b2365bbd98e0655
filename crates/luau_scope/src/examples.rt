//! Small modules whose reading is computed, over the one declared builtin `math.abs`.

ghost use Rattle.std.specs.Prelude.{◌≡◌, [], ◌∷◌, Some, None, true, false, codes, map};
ghost use Rattle.luau_tree.specs.Tree.{Index, At, StrExpr, FunctionExpr, no_binds};
ghost use Rattle.luau_scope.specs.declared.reading.Use.TheVariants.{Local, Builtin, Library, Global};
ghost use Rattle.luau_scope.specs.declared.refusal.Refusal.TheVariants.{Metatable, Coroutine, Environment, DynamicRequire, TypeFunction, GenericPack, AssignedBuiltin, RepeatedTarget, TooManyLocals, BreakOutsideLoop, ContinueOutsideLoop, ContinuePastLocal, VarargOutside};
ghost use Rattle.luau_scope.specs.Examples.{uses, number, captures, marks, fixed};
ghost use Rattle.luau_scope.specs.Samples as sample;

/// Which locals are assigned, captured and loose.
#[tactic(auto, unfolding(crate::specs::Found::join))]
pub fn locals_by_their_uses()
    ensures assigned_in_a_function { marks sample.loose_local ≡ (true, true, true) ∷ (false, false, false) ∷ [] }
    ensures assigned_where_declared { marks sample.assigned_parameter ≡ (false, false, false) ∷ (true, false, false) ∷ [] }
    ensures captured_by_own_header { marks sample.header ≡ (false, true, false) ∷ (false, false, false) ∷ [] }
{}

/// What names stand for.
#[tactic(auto, unfolding(crate::specs::Found::join))]
pub fn names_by_their_scopes()
    ensures library_and_path { uses sample.loose_local ≡ (35, Local (number 0)) ∷ (46, Builtin (codes "math.abs")) ∷ (47, Library) ∷ (54, Local (number 0)) ∷ [] }
    ensures own_value_is_outside { uses sample.own_value ≡ (10, Global) ∷ (19, Local (number 0)) ∷ [] }
    ensures own_type_is_outside { uses sample.own_type ≡ (16, Global) ∷ [] }
    ensures inner_hides_outer { uses sample.hidden ≡ (34, Local (number 1)) ∷ (47, Local (number 0)) ∷ [] }
    ensures until_sees_the_body { uses sample.repeated ≡ (25, Local (number 0)) ∷ (34, Global) ∷ [] }
    ensures header_is_inside { uses sample.header ≡ (27, Local (number 0)) ∷ [] }
    ensures numbered_by_the_text { uses sample.two_locals
        ≡ (13, Builtin (codes "math.abs")) ∷ (14, Library) ∷ (24, Global) ∷ (44, Local (number 2)) ∷ (58, Local (number 0)) ∷ [] }
{}

/// Which expressions are a builtin for certain: a path, and a local that is given one and not assigned.
#[tactic(auto, unfolding(crate::specs::Found::join))]
pub fn builtins_for_certain()
    ensures path { fixed sample.two_locals 13 ≡ Some (codes "math.abs") }
    ensures given { fixed sample.two_locals 58 ≡ Some (codes "math.abs") }
    ensures library { fixed sample.two_locals 14 ≡ None }
    ensures parameter { fixed sample.two_locals 44 ≡ None }
{}

/// Which locals from outside a body uses: what it declares itself is none of them, nor what another body uses.
#[tactic(auto, unfolding(crate::specs::Found::join))]
pub fn captured_locals()
    ensures assigned { captures sample.loose_local ≡ (0 ∷ []) ∷ [] }
    ensures own_parameter { captures sample.assigned_parameter ≡ [] ∷ [] }
    ensures own_header { captures sample.header ≡ (0 ∷ []) ∷ [] }
    ensures of_inner_function { captures sample.nested ≡ (0 ∷ []) ∷ (0 ∷ 1 ∷ []) ∷ [] }
{}
