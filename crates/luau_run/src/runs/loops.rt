//! Runs of loops that are computed: what a turn does and takes, what `break` and `continue` do,
//! what an iteration hands over, and that each turn has cells of its own.

ghost use Rattle.std.specs.Prelude.{◌≡◌, [], ◌∷◌, Some, None, false, true, codes};
ghost use Rattle.luau_values.specs.Value.{Truth, Num, Str};
ghost use Rattle.luau_tree.specs.Tree.{NilExpr, TrueExpr};
ghost use Rattle.luau_run.specs.Machine.{Says, Fail, Turn, Stop, Done, Leave};
ghost use Rattle.luau_run.specs.runs.Outcome.{Normal, Return, Failure, Unfinished, reached, gives, ends, one_more};
ghost use Rattle.luau_run.specs.Run.{trace};
ghost use Rattle.luau_run.specs.runs.Builders.{num, str};
ghost use Rattle.luau_run.specs.runs.Loops.{repeated, continued, repeat_broken_off, no_turn, two_turns, over_table, over_function, over_builtin, fresh_cells, counting_from, counting_by};

/// What loops do.
pub fn loops_that_turn()
    ensures until_sees_body { trace repeated 0 50 [] ≡ reached 0 ∷ reached 1 ∷ Leave 0 ∷ [] }
    ensures continue_meets_until { ends (continued TrueExpr) 50 [] ≡ Normal }
    ensures repeat_goes_on { trace (continued NilExpr) 0 8 [] ≡ reached 0 ∷ reached 0 ∷ [] }
    ensures break_ends_repeat { trace repeat_broken_off 0 50 [] ≡ Leave 0 ∷ [] }
    ensures while_turns { gives two_turns 50 [] ≡ Some (Num (codes "1") ∷ []) }
    ensures while_ends { ends no_turn 50 [] ≡ Normal }
    ensures table { gives over_table 50 (Turn (Num (codes "1") ∷ Str (codes "s") ∷ []) ∷ Stop ∷ []) ≡ Some (Str (codes "s") ∷ []) }
    ensures function { gives over_function 50 [] ≡ Some (Truth false ∷ []) }
    ensures builtin { gives over_builtin 50 (Done (Str (codes "s") ∷ []) ∷ []) ≡ Some (Str (codes "s") ∷ []) }
    ensures builtin_ends { ends over_builtin 50 (Done [] ∷ []) ≡ Normal }
    ensures cells { gives fresh_cells 50 (Turn (Num (codes "1") ∷ []) ∷ Turn (Num (codes "2") ∷ []) ∷ Stop ∷ []) ≡ Some (Num (codes "1") ∷ []) }
{}

/// The bounds of a numeric `for`, which are evaluated in their order: one that is nil fails, a
/// string may fail, and numbers ask for nothing.
pub fn bounds_of_for()
    ensures nil_bound { ends (counting_from NilExpr) 50 [] ≡ Failure }
    ensures string_bound { ends (counting_from str) 50 (Says true ∷ Stop ∷ []) ≡ Normal }
    ensures string_bound_fails { ends (counting_from str) 50 (Fail ∷ []) ≡ Failure }
    ensures nil_step { ends (counting_by NilExpr) 50 [] ≡ Failure }
    ensures number_step { trace (counting_by num) 0 50 (Stop ∷ []) ≡ reached 0 ∷ reached 1 ∷ reached 2 ∷ Leave 0 ∷ [] }
    ensures no_such_turn { ends (counting_by num) 50 (Turn (Str (codes "s") ∷ []) ∷ []) ≡ Unfinished }
{}

/// How many steps loops take: each turn takes one, the last try too, and in an iteration over a
/// function so does the call.
pub fn steps_of_loops()
    ensures repeats { one_more repeated 4 [] ≡ (Unfinished, Normal) }
    ensures whiles { one_more two_turns 15 [] ≡ (Unfinished, Return) }
    ensures tables { one_more over_table 8 (Turn (Num (codes "1") ∷ Str (codes "s") ∷ []) ∷ Stop ∷ []) ≡ (Unfinished, Return) }
    ensures functions { one_more over_function 21 [] ≡ (Unfinished, Return) }
    ensures numbers { one_more (counting_from str) 3 (Says true ∷ Stop ∷ []) ≡ (Unfinished, Normal) }
    ensures numbers_with_step { one_more (counting_by num) 4 (Stop ∷ []) ≡ (Unfinished, Normal) }
{}
