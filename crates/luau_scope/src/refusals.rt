//! Small modules, each with what the profile refuses in it and where, beside near ones that it accepts.

ghost use Rattle.std.specs.Prelude.{◌≡◌, [], ◌∷◌, Some, None, codes};
ghost use Rattle.luau_tree.specs.Tree.{Index, At, StrExpr, FunctionExpr, no_binds};
ghost use Rattle.luau_scope.specs.declared.refusal.Refusal.TheVariants.{Metatable, Coroutine, Environment, DynamicRequire, TypeFunction, GenericPack, AssignedBuiltin, RepeatedTarget, TooManyLocals, BreakOutsideLoop, ContinueOutsideLoop, ContinuePastLocal, VarargOutside};
ghost use Rattle.luau_scope.specs.Examples.{e, name, num, call, body, refusal, requires_in};
ghost use Rattle.luau_scope.specs.Samples as sample;

/// Globals that are refused wherever they are used.
#[tactic(auto, unfolding(crate::specs::Found::join))]
pub fn globals_that_are_refused()
    ensures metatable { refusal (sample.calling (codes "setmetatable")) ≡ Some (1, Metatable) }
    ensures proxy { refusal (sample.calling (codes "newproxy")) ≡ Some (1, Metatable) }
    ensures coroutine { refusal (sample.calling (codes "coroutine")) ≡ Some (1, Coroutine) }
    ensures environment { refusal (sample.calling (codes "getfenv")) ≡ Some (1, Environment) }
    ensures globals { refusal (sample.setting (name 0 (codes "_G"))) ≡ Some (0, Environment) }
    ensures another { refusal (sample.calling (codes "rawset")) ≡ None }
    ensures before_a_later_one { refusal sample.metatable_then_break ≡ Some (1, Metatable) }
{}

/// `require` is static or refused.
#[tactic(auto, unfolding(crate::specs::Found::join))]
pub fn requires_that_are_static()
    ensures by_a_way { refusal sample.static_require ≡ None }
    ensures site { requires_in sample.static_require ≡ (7, codes "./a") ∷ [] }
    ensures of_a_name { refusal sample.require_of_name ≡ Some (8, DynamicRequire) }
    ensures in_parentheses { refusal sample.require_in_parentheses ≡ Some (9, DynamicRequire) }
    ensures no_way { refusal sample.require_by_name ≡ Some (8, DynamicRequire) }
    ensures own { refusal sample.own_require ≡ None }
{}

/// Builtins, libraries and their fields are not assigned.
#[tactic(auto, unfolding(crate::specs::Found::join))]
pub fn assignments_to_builtins()
    ensures field { refusal (sample.setting (sample.math_at 0 (codes "abs"))) ≡ Some (0, AssignedBuiltin) }
    ensures undeclared_field { refusal (sample.setting (sample.math_at 0 (codes "none"))) ≡ Some (0, AssignedBuiltin) }
    ensures library { refusal (sample.setting (name 0 (codes "math"))) ≡ Some (0, AssignedBuiltin) }
    ensures field_of_a_field { refusal (sample.setting (e 0 (Index (sample.math_at 1 (codes "abs")) (codes "x")))) ≡ None }
    ensures by_a_key { refusal (sample.setting (e 0 (At (name 1 (codes "math")) (e 6 (StrExpr (codes "abs")))))) ≡ None }
    ensures another_global { refusal (sample.setting (name 0 (codes "x"))) ≡ None }
    ensures function { refusal (sample.function_named (sample.math_at 9 (codes "foo"))) ≡ Some (9, AssignedBuiltin) }
    ensures method { refusal (sample.method_named (name 9 (codes "math"))) ≡ Some (9, AssignedBuiltin) }
    ensures method_of_a_field { refusal (sample.method_named (sample.math_at 9 (codes "abs"))) ≡ None }
{}

/// A local stands once among the targets of an assignment, and a function has at most 200 in scope.
#[tactic(auto, unfolding(crate::specs::Found::join))]
pub fn locals_that_are_refused()
    ensures twice { refusal sample.twice ≡ Some (11, RepeatedTarget) }
    ensures two_hundred { refusal (sample.many_locals 200) ≡ None }
    ensures one_more { refusal (sample.many_locals 201) ≡ Some (606, TooManyLocals) }
    ensures function_counts_its_own { refusal (sample.many_around_function 200) ≡ None }
{}

/// `break` and `continue` stand in loops of their own function, and a `repeat` isn't continued past a local of its `until`.
#[tactic(auto, unfolding(crate::specs::Found::join))]
pub fn jumps_that_are_refused()
    ensures lone_break { refusal sample.lone_break ≡ Some (0, BreakOutsideLoop) }
    ensures lone_continue { refusal sample.lone_continue ≡ Some (0, ContinueOutsideLoop) }
    ensures in_loop { refusal sample.break_in_loop ≡ None }
    ensures in_function { refusal sample.break_in_function ≡ Some (29, BreakOutsideLoop) }
    ensures past_local { refusal (sample.continue_before (name 48 (codes "a"))) ≡ Some (17, ContinuePastLocal) }
    ensures past_unused_local { refusal (sample.continue_before (name 48 (codes "x"))) ≡ None }
    ensures past_captured_local { refusal (sample.continue_before (e 48 (FunctionExpr (body 0 [] (sample.return_at 59 (name 66 (codes "a")) ∷ []))))) ≡ Some (17, ContinuePastLocal) }
    ensures behind_local { refusal sample.continue_behind ≡ None }
    ensures of_inner_loop { refusal sample.continue_of_inner_loop ≡ None }
{}

/// `...` where it is taken, type functions, and packs of types.
#[tactic(auto, unfolding(crate::specs::Found::join))]
pub fn forms_that_are_refused()
    ensures in_module { refusal sample.dots_in_module ≡ None }
    ensures in_function { refusal sample.dots_in_function ≡ Some (25, VarargOutside) }
    ensures taken { refusal sample.dots_taken ≡ None }
    ensures generic_pack { refusal sample.generic_pack ≡ Some (7, GenericPack) }
    ensures pack_in_type { refusal sample.pack_in_type ≡ Some (9, GenericPack) }
    ensures type_function { refusal sample.type_function ≡ Some (0, TypeFunction) }
{}
