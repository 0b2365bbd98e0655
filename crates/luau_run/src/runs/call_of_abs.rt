//! Runs that are computed: a module with one call of `math.abs`, which is checked and takes and
//! gives a number.

ghost use Rattle.std.specs.Prelude.{◌≡◌, [], ◌∷◌, codes};
ghost use Rattle.luau_values.specs.Value.{Num, Str};
ghost use Rattle.luau_tree.specs.Tree.{StrExpr, NumberExpr};
ghost use Rattle.luau_run.specs.Machine.{Leave, Done};
ghost use Rattle.luau_run.specs.Certain.{Certain};
ghost use Rattle.luau_run.specs.runs.Outcome.{Normal, Failure, Unfinished, reached};
ghost use Rattle.luau_run.specs.runs.CallOfAbs.{outcome_and_trace, calling_abs, at_literal};

/// `math.abs("hi")`: the call's place is reached, then the callee's and the argument's, and then
/// the call fails. It needs five steps and no answer: with four it is unfinished at the call, with
/// three before the argument.
pub fn wrong_argument()
    ensures five_steps { outcome_and_trace (StrExpr (codes "hi")) 5 [] ≡ (Failure, reached 0 ∷ reached 1 ∷ reached 3 ∷ []) }
    ensures four_steps { outcome_and_trace (StrExpr (codes "hi")) 4 [] ≡ (Unfinished, reached 0 ∷ reached 1 ∷ reached 3 ∷ []) }
    ensures three_steps { outcome_and_trace (StrExpr (codes "hi")) 3 [] ≡ (Unfinished, reached 0 ∷ reached 1 ∷ []) }
{}

/// `math.abs(1)`: the same places; with a number as the answer the body ends, with a string the
/// builtin breaks its declaration, which counts as a failure, and with no answer the run is
/// unfinished.
pub fn right_argument()
    ensures number { outcome_and_trace (NumberExpr (codes "1")) 9 (Done (Num (codes "1") ∷ []) ∷ []) ≡ (Normal, reached 0 ∷ reached 1 ∷ reached 3 ∷ Leave 0 ∷ []) }
    ensures string { outcome_and_trace (NumberExpr (codes "1")) 9 (Done (Str (codes "a") ∷ []) ∷ []) ≡ (Failure, reached 0 ∷ reached 1 ∷ reached 3 ∷ []) }
    ensures none { outcome_and_trace (NumberExpr (codes "1")) 9 [] ≡ (Unfinished, reached 0 ∷ reached 1 ∷ reached 3 ∷ []) }
{}

/// A report at the wrong argument is certain. One at the right argument isn't, since some run is
/// left after it.
pub fn reports_at_the_argument()
    ensures wrong { Certain (calling_abs (StrExpr (codes "hi"))) at_literal }
    ensures right { Certain (calling_abs (NumberExpr (codes "1"))) at_literal → ⊥ }
{}
