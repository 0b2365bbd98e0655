//! Laws of certainty. Each is the contract of a function that does nothing.

ghost use Rattle.std.specs.Prelude.{ℕ, List};
ghost use Rattle.std.specs.List.{Contains};
ghost use Rattle.luau_tree.specs.declared.names.Place.{Place};
ghost use Rattle.luau_run.specs.Program.{Program};
ghost use Rattle.luau_run.specs.Certain.{Certain};

/// Where reports are certain, fewer of them are.
#[tactic(auto, using(crate::proofs::Counts::fewer_certain))]
pub fn fewer_reports_are_certain()
    ensures { (program : Program) (reports fewer : List (ℕ × Place))
        → ((r : ℕ × Place) → Contains fewer r → Contains reports r) → Certain program reports → Certain program fewer }
{}
