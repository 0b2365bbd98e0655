//! Runs of operators and of other expressions that are computed: what fails, what is asked for, and
//! what is known.

ghost use Rattle.std.specs.Prelude.{◌≡◌, [], ◌∷◌, Some, true, false, codes, map};
ghost use Rattle.luau_values.specs.Value.{Nil, Truth, Num, Str, Builtin, Other};
ghost use Rattle.luau_tree.specs.Tree.{NilExpr, TrueExpr, FalseExpr, At, Call, FunctionExpr, Unary, no_exprs, no_binds};
ghost use Rattle.luau_tree.specs.declared.names.BinOp.TheVariants.{Add, Sub, Mul, Div, FloorDiv, Mod, Pow, Concat, Equal, NotEqual, Less, Greater, LessEqual, GreaterEqual};
ghost use Rattle.luau_tree.specs.declared.names.UnOp.TheVariants.{Minus, Not, Length};
ghost use Rattle.luau_run.specs.Machine.{One, Says, Fail, Done, Leave};
ghost use Rattle.luau_run.specs.runs.Outcome.{Return, Failure, Unfinished, reached, gives, ends, one_more};
ghost use Rattle.luau_run.specs.Run.{trace};
ghost use Rattle.luau_run.specs.runs.Builders.{e, num, str, name, table, body_of};
ghost use Rattle.luau_run.specs.runs.Operators.{giving, applied, operators, closure_and_itself, interpolated, library_element, keyed_items, frozen_twice, type_of, field_of_string};

/// Arithmetic: two numbers give a number, a string may fail, nil fails.
pub fn arithmetic_on_kinds()
    ensures numbers { map (λ op. gives (applied op num num) 50 (One (Num (codes "2")) ∷ [])) (Add ∷ Sub ∷ Mul ∷ Div ∷ FloorDiv ∷ Mod ∷ Pow ∷ [])
        ≡ map (λ op. Some (Num (codes "2") ∷ [])) (Add ∷ Sub ∷ Mul ∷ Div ∷ FloorDiv ∷ Mod ∷ Pow ∷ []) }
    ensures numbers_do_not_fail { ends (applied Add num num) 50 (Fail ∷ []) ≡ Unfinished }
    ensures string_fails { ends (applied Add str num) 50 (Fail ∷ []) ≡ Failure }
    ensures nil_fails { ends (applied Add num NilExpr) 50 [] ≡ Failure }
    ensures minus_number { gives (giving (Unary Minus (e 1 num))) 50 (One (Num (codes "-1")) ∷ []) ≡ Some (Num (codes "-1") ∷ []) }
    ensures minus_table { ends (giving (Unary Minus (e 1 (table [])))) 50 [] ≡ Failure }
    ensures string_length { gives (giving (Unary Length (e 1 str))) 50 (One (Num (codes "1")) ∷ []) ≡ Some (Num (codes "1") ∷ []) }
    ensures table_length { gives (giving (Unary Length (e 1 (table [])))) 50 (One (Num (codes "0")) ∷ []) ≡ Some (Num (codes "0") ∷ []) }
    ensures number_length { ends (giving (Unary Length (e 1 num))) 50 [] ≡ Failure }
    ensures joined { gives (applied Concat num str) 50 (One (Str (codes "1s")) ∷ []) ≡ Some (Str (codes "1s") ∷ []) }
{}

/// Orders and equality: two strings have an order, kinds have none; the tape says whether two
/// numbers, or two closures of one literal, are equal.
pub fn comparisons_of_kinds()
    ensures strings_ordered { map (λ op. gives (applied op str str) 50 (Says true ∷ [])) (Less ∷ Greater ∷ LessEqual ∷ GreaterEqual ∷ [])
        ≡ map (λ op. Some (Truth true ∷ [])) (Less ∷ Greater ∷ LessEqual ∷ GreaterEqual ∷ []) }
    ensures kinds_not_ordered { map (λ op. ends (applied op num str) 50 []) (Less ∷ Greater ∷ LessEqual ∷ GreaterEqual ∷ [])
        ≡ Failure ∷ Failure ∷ Failure ∷ Failure ∷ [] }
    ensures numbers_equal { gives (applied Equal num num) 50 (Says false ∷ []) ≡ Some (Truth false ∷ []) }
    ensures closures_equal { gives closure_and_itself 50 (Says false ∷ []) ≡ Some (Truth false ∷ []) }
    ensures strings_equal { gives (applied Equal str str) 50 [] ≡ Some (Truth true ∷ []) }
    ensures strings_unequal { gives (applied NotEqual str str) 50 [] ≡ Some (Truth false ∷ []) }
    ensures booleans_differ { gives (applied Equal TrueExpr FalseExpr) 50 [] ≡ Some (Truth false ∷ []) }
    ensures kinds_differ { gives (applied Equal NilExpr FalseExpr) 50 [] ≡ Some (Truth false ∷ []) }
    ensures truths { gives operators 50 [] ≡ Some (Nil ∷ Str (codes "s") ∷ Str (codes "s") ∷ Truth true ∷ Truth true ∷ Str (codes "s") ∷ []) }
    ensures not_false { gives (giving (Unary Not (e 1 FalseExpr))) 50 [] ≡ Some (Truth true ∷ []) }
{}

/// What `type` says, and what `table.freeze` does with a frozen table.
pub fn exact_builtins()
    ensures kinds { map (λ kind. gives (type_of kind) 50 []) (NilExpr ∷ TrueExpr ∷ FalseExpr ∷ num ∷ str ∷ table [] ∷ [])
        ≡ map (λ kind. Some (Str kind ∷ [])) (codes "nil" ∷ codes "boolean" ∷ codes "boolean" ∷ codes "number" ∷ codes "string" ∷ codes "table" ∷ []) }
    ensures functions { gives (type_of (FunctionExpr (body_of 0 no_binds []))) 50 [] ≡ Some (Str (codes "function") ∷ []) }
    ensures other { gives (type_of (Call (name 3) no_exprs)) 50 (Done (Other 5 ∷ []) ∷ One (Str (codes "thread")) ∷ []) ≡ Some (Str (codes "thread") ∷ []) }
    ensures other_is_no_number { ends (type_of (Call (name 3) no_exprs)) 50 (Done (Other 5 ∷ []) ∷ One (Str (codes "number")) ∷ []) ≡ Unfinished }
    ensures freeze_again { gives frozen_twice 50 (Says true ∷ []) ≡ Some (Truth false ∷ []) }
    ensures freeze_again_fails { ends frozen_twice 50 (Fail ∷ []) ≡ Failure }
{}

/// Fields and elements, and what an interpolated string is.
pub fn fields_and_strings()
    ensures library { gives library_element 50 [] ≡ Some (Builtin (codes "math.abs") ∷ []) }
    ensures keyed { gives keyed_items 50 (Says true ∷ []) ≡ Some (Str (codes "s") ∷ []) }
    ensures keyed_fails { ends keyed_items 50 (Fail ∷ []) ≡ Failure }
    ensures string_field { gives (field_of_string (codes "len")) 50 [] ≡ Some (Builtin (codes "string.len") ∷ []) }
    ensures no_string_field { gives (field_of_string (codes "none")) 50 [] ≡ Some (Nil ∷ []) }
    ensures string_element { gives (giving (At (e 1 str) (e 2 num))) 50 (One Nil ∷ []) ≡ Some (Nil ∷ []) }
    ensures interpolation { gives interpolated 50 (One (Str (codes "a1bs")) ∷ []) ≡ Some (Str (codes "a1bs") ∷ []) }
    ensures interpolation_is_a_string { ends interpolated 50 (One (Num (codes "1")) ∷ []) ≡ Unfinished }
    ensures interpolation_trace { trace interpolated 0 50 (One (Str []) ∷ []) ≡ reached 0 ∷ reached 1 ∷ reached 2 ∷ Leave 0 ∷ [] }
    ensures interpolation_steps { one_more interpolated 3 (One (Str []) ∷ []) ≡ (Unfinished, Return) }
{}
