//! Runs of further forms of syntax that are computed.

ghost use Rattle.std.specs.Prelude.{◌≡◌, [], ◌∷◌, Some, None, codes, map};
ghost use Rattle.luau_values.specs.Value.{Nil, Num, Str, Lit, Builtin};
ghost use Rattle.luau_tree.specs.Tree.{NilExpr, NumberExpr, StrExpr};
ghost use Rattle.luau_tree.specs.declared.names.Place.TheVariants.{Expr as ExprPlace, Param};
ghost use Rattle.luau_run.specs.Machine.{One, Turn, Stop, Does, Catches, Done, Reach, Leave};
ghost use Rattle.luau_run.specs.runs.Outcome.{Failure, Unfinished, reached, gives, ends};
ghost use Rattle.luau_run.specs.Run.{trace};
ghost use Rattle.luau_run.specs.runs.Modules.{assigned_by_closure, field_written, counted, broken_off, required, caught_failure, failing, annotated_call, off_library, element_off_library, declared_off_library, computed_off_library, method_off_library, compound_off_library, compound_off_local, off_table};

/// What modules return, with enough steps and the answers that they ask for.
pub fn modules_that_return()
    ensures closure { gives assigned_by_closure 50 [] ≡ Some (Str (codes "s") ∷ []) }
    ensures field { gives (field_written (StrExpr (codes "v"))) 50 [] ≡ Some (Str (codes "v") ∷ []) }
    ensures nil_field { gives (field_written NilExpr) 50 [] ≡ Some (Nil ∷ []) }
    ensures turns { gives counted 50 (Turn (Num (codes "7") ∷ []) ∷ Stop ∷ []) ≡ Some (Num (codes "7") ∷ []) }
    ensures no_turns { gives counted 50 (Stop ∷ []) ≡ Some (Nil ∷ []) }
    ensures break_ends { gives broken_off 50 [] ≡ Some (Num (codes "1") ∷ []) }
    ensures absent_field { gives (off_table (codes "math") (codes "none")) 50 [] ≡ Some (Nil ∷ []) }
    ensures declared_field { gives (off_table (codes "table") (codes "freeze")) 50 [] ≡ Some (Builtin (codes "table.freeze") ∷ []) }
    ensures no_library { gives (off_table (codes "none") (codes "none")) 50 [] ≡ None }
    ensures other_module { gives required 50 [] ≡ Some (Str (codes "s") ∷ []) }
{}

/// A name that no library declares, read straight off the library's name: in every form it is any
/// value, and the tape says which. A declared one is the builtin, and asks for nothing. Read off a local
/// that holds the library's table, what is not declared is nil.
pub fn names_off_a_library()
    ensures field { gives off_library 50 (One (Num (codes "3")) ∷ []) ≡ Some (Num (codes "3") ∷ []) }
    ensures key { gives element_off_library 50 (One (Num (codes "3")) ∷ []) ≡ Some (Num (codes "3") ∷ []) }
    ensures computed_key { gives computed_off_library 50 (One (Str (codes "none")) ∷ One (Num (codes "3")) ∷ [])
        ≡ Some (Num (codes "3") ∷ []) }
    ensures declared { gives declared_off_library 50 [] ≡ Some (Builtin (codes "math.abs") ∷ []) }
    ensures method { gives method_off_library 50 (One (Builtin (codes "pcall")) ∷ Done (Num (codes "3") ∷ []) ∷ [])
        ≡ Some (Num (codes "3") ∷ []) }
    ensures compound { ends compound_off_library 50 [] ≡ Unfinished }
    ensures compound_writes { ends compound_off_library 50 (One (Num (codes "3")) ∷ One (Num (codes "4")) ∷ []) ≡ Failure }
    ensures local { ends compound_off_local 50 [] ≡ Failure }
{}

/// A failure that `pcall` catches: the function's activation reaches its call and isn't left; the
/// module's own is.
pub fn failure_that_is_caught()
    ensures { trace caught_failure 0 50 (Does (Catches (Lit 1 0 []) []) ∷ Done [] ∷ [])
        ≡ reached 0 ∷ reached 1 ∷ reached 2
        ∷ Reach 1 0 (ExprPlace (record { 0 = 3 })) ∷ Reach 1 0 (ExprPlace (record { 0 = 4 })) ∷ Reach 1 0 (ExprPlace (record { 0 = 6 }))
        ∷ Leave 0 ∷ [] }
{}

/// What fails for certain asks for no answer.
pub fn modules_that_fail()
    ensures { map (λ program. ends program 50 []) failing ≡ map (λ program. Failure) failing }
{}

/// A parameter's place is reached, after the call's arguments and before the body, where the
/// argument is in its annotation.
pub fn parameter_that_is_reached()
    ensures number { trace (annotated_call (NumberExpr (codes "1"))) 0 50 []
        ≡ reached 0 ∷ reached 1 ∷ reached 2
        ∷ Reach 1 0 (Param (record { 0 = 0 }) 0) ∷ Leave 1 ∷ Leave 0 ∷ [] }
    ensures string { trace (annotated_call (StrExpr (codes "s"))) 0 50 []
        ≡ reached 0 ∷ reached 1 ∷ reached 2
        ∷ Leave 1 ∷ Leave 0 ∷ [] }
{}
