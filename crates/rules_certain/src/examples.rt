//! Programs of the built form that are computed.

ghost use Rattle.std.specs.Prelude.{◌≡◌, ◌∷◌, [], true, false, codes};
ghost use Rattle.luau_values.specs.Value.{Num};
ghost use Rattle.luau_tree.specs.Tree.{StrExpr, TrueExpr, FalseExpr};
ghost use Rattle.luau_run.specs.Machine.{Leave, Done};
ghost use Rattle.luau_run.specs.runs.Outcome.{Normal, Failure, Unfinished, reached};
ghost use Rattle.luau_run.specs.runs.CallOfAbs.{call_of_abs};
ghost use Rattle.rules_certain.specs.Literal.{NilLiteral, TruthLiteral, NumberLiteral, StrLiteral};
ghost use Rattle.rules_certain.specs.Calls.{block_of};
ghost use Rattle.rules_certain.specs.Reports.{place};
ghost use Rattle.rules_certain.specs.Examples.{written, reports_for, outcome_and_trace};

/// A literal of each kind: all but the number are reported, at the fourth number of their calls.
pub fn reported()
    ensures { reports_for (NilLiteral ∷ TruthLiteral true ∷ NumberLiteral (codes "1") ∷ TruthLiteral false ∷ StrLiteral (codes "1") ∷ [])
        ≡ (0, place 3) ∷ (0, place 7) ∷ (0, place 15) ∷ (0, place 19) ∷ [] }
{}

/// The statement of a call is the call of `math.abs` with its literal, numbered in the order of the text.
pub fn tree_of_a_call()
    ensures text { block_of 0 (written (StrLiteral (codes "hi")) ∷ []) ≡ call_of_abs (StrExpr (codes "hi")) }
    ensures truths { block_of 0 (written (TruthLiteral true) ∷ []) ≡ call_of_abs TrueExpr × block_of 0 (written (TruthLiteral false) ∷ []) ≡ call_of_abs FalseExpr }
{}

/// `math.abs(1) math.abs("hi") math.abs(nil)`: with an answer for the first call the second fails, and the third is never
/// reached; without one the run is unfinished at the first.
pub fn fails_at_the_second()
    ensures fails { outcome_and_trace (NumberLiteral (codes "1") ∷ StrLiteral (codes "hi") ∷ NilLiteral ∷ []) 20 (Done (Num (codes "1") ∷ []) ∷ [])
        ≡ (Failure, reached 0 ∷ reached 1 ∷ reached 3 ∷ reached 4 ∷ reached 5 ∷ reached 7 ∷ []) }
    ensures unanswered { outcome_and_trace (NumberLiteral (codes "1") ∷ StrLiteral (codes "hi") ∷ NilLiteral ∷ []) 20 []
        ≡ (Unfinished, reached 0 ∷ reached 1 ∷ reached 3 ∷ []) }
{}

/// `math.abs(1) math.abs(2)`: with a number as the answer to each call the body ends.
pub fn ends()
    ensures { outcome_and_trace (NumberLiteral (codes "1") ∷ NumberLiteral (codes "2") ∷ []) 20 (Done (Num (codes "1") ∷ []) ∷ Done (Num (codes "2") ∷ []) ∷ [])
        ≡ (Normal, reached 0 ∷ reached 1 ∷ reached 3 ∷ reached 4 ∷ reached 5 ∷ reached 7 ∷ Leave 0 ∷ []) }
{}
