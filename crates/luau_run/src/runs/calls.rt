//! Runs of calls, assignments, other statements and requires that are computed.

ghost use Rattle.std.specs.Prelude.{◌≡◌, [], ◌∷◌, Some, true, codes};
ghost use Rattle.luau_values.specs.Value.{Nil, Truth, Num, Str};
ghost use Rattle.luau_tree.specs.declared.names.Place.TheVariants.{Expr as ExprPlace, Param};
ghost use Rattle.luau_tree.specs.Tree.{Paren, Assert};
ghost use Rattle.luau_run.specs.Machine.{One, Says, Fail, Reach, Leave};
ghost use Rattle.luau_run.specs.runs.Outcome.{Return, Failure, Unfinished, reached, gives, ends, one_more};
ghost use Rattle.luau_run.specs.Run.{trace};
ghost use Rattle.luau_run.specs.runs.Builders.{e};
ghost use Rattle.luau_run.specs.runs.Calls.{method_called, function_on_field, function_on_method, expanding, not_expanding, nil_type, swapped, compound_field, element_written, global_written, returned_from_do, second_arm, types_passed, required_twice};

/// What calls give: a method has its base as its first argument, `...` has the arguments past the
/// parameters, and a call gives all of its values where it stands last and alone, and one
/// elsewhere.
pub fn calls_that_give()
    ensures method { gives method_called 50 [] ≡ Some (Num (codes "1") ∷ Str (codes "s") ∷ []) }
    ensures on_field { gives function_on_field 50 [] ≡ Some (Str (codes "s") ∷ []) }
    ensures on_method { gives function_on_method 50 [] ≡ Some (Truth true ∷ []) }
    ensures all { gives (expanding (λ call. call)) 50 [] ≡ Some (Num (codes "1") ∷ Str (codes "s") ∷ []) }
    ensures not_last { gives not_expanding 50 [] ≡ Some (Num (codes "1") ∷ Str (codes "s") ∷ []) }
    ensures parentheses { gives (expanding (λ call. e 1 (Paren call))) 50 [] ≡ Some (Num (codes "1") ∷ []) }
    ensures asserted { gives (expanding (λ call. e 1 (Assert call nil_type))) 50 [] ≡ Some (Num (codes "1") ∷ []) }
    ensures loaded_once { gives required_twice 50 [] ≡ Some (Truth true ∷ []) }
{}

/// What calls log: the base of a method and the arguments, then the parameters, then the body.
pub fn traces_of_calls()
    ensures method { trace method_called 0 50 []
        ≡ reached 0 ∷ reached 1 ∷ reached 2 ∷ reached 6 ∷ reached 7 ∷ reached 8
        ∷ Reach 1 0 (Param (record { 0 = 0 }) 0) ∷ Reach 1 0 (Param (record { 0 = 0 }) 1)
        ∷ Reach 1 0 (ExprPlace (record { 0 = 3 })) ∷ Reach 1 0 (ExprPlace (record { 0 = 4 })) ∷ Reach 1 0 (ExprPlace (record { 0 = 5 }))
        ∷ Leave 1 ∷ Leave 0 ∷ [] }
    ensures asserted { trace (expanding (λ call. e 1 (Assert call nil_type))) 0 50 []
        ≡ reached 1 ∷ reached 2 ∷ reached 3 ∷ reached 4 ∷ reached 5 ∷ reached 6
        ∷ Reach 1 0 (Param (record { 0 = 0 }) 0) ∷ Reach 1 0 (ExprPlace (record { 0 = 0 })) ∷ Leave 1 ∷ Leave 0 ∷ [] }
{}

/// What other statements do.
pub fn statements_that_run()
    ensures swap { gives swapped 50 [] ≡ Some (Str (codes "s") ∷ Num (codes "1") ∷ []) }
    ensures compound { gives compound_field 50 (One (Num (codes "2")) ∷ []) ≡ Some (Num (codes "2") ∷ []) }
    ensures compound_trace { trace compound_field 0 50 (One (Num (codes "2")) ∷ [])
        ≡ reached 0 ∷ reached 1 ∷ reached 2 ∷ reached 3 ∷ reached 4 ∷ reached 5 ∷ reached 6 ∷ Leave 0 ∷ [] }
    ensures compound_target { trace compound_field 0 4 [] ≡ reached 0 ∷ reached 1 ∷ reached 2 ∷ [] }
    ensures element { gives element_written 50 (Says true ∷ One Nil ∷ []) ≡ Some (Nil ∷ []) }
    ensures element_fails { ends element_written 50 (Fail ∷ []) ≡ Failure }
    ensures global { gives global_written 50 (One (Str (codes "s")) ∷ []) ≡ Some (Str (codes "s") ∷ []) }
    ensures do_block { gives returned_from_do 50 [] ≡ Some (Str (codes "s") ∷ []) }
    ensures elseif { gives second_arm 50 [] ≡ Some (Str (codes "s") ∷ []) }
{}

/// How many steps calls and statements take.
pub fn steps_of_calls()
    ensures method { one_more method_called 12 [] ≡ (Unfinished, Return) }
    ensures field_statement { one_more function_on_field 10 [] ≡ (Unfinished, Return) }
    ensures method_statement { one_more function_on_method 11 [] ≡ (Unfinished, Return) }
    ensures plain { one_more (expanding (λ call. call)) 9 [] ≡ (Unfinished, Return) }
    ensures asserted { one_more (expanding (λ call. e 1 (Assert call nil_type))) 10 [] ≡ (Unfinished, Return) }
    ensures requires_twice { one_more required_twice 11 [] ≡ (Unfinished, Return) }
    ensures compound { one_more compound_field 8 (One (Num (codes "2")) ∷ []) ≡ (Unfinished, Return) }
    ensures types { one_more types_passed 3 [] ≡ (Unfinished, Return) }
    ensures do_block { one_more returned_from_do 2 [] ≡ (Unfinished, Return) }
    ensures elseif { one_more second_arm 4 [] ≡ (Unfinished, Return) }
{}
