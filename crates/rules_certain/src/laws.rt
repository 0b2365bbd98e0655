//! What is reported of modules of the built form, and that it is certain. Each law is the contract of a function that
//! does nothing.

ghost use Rattle.std.specs.Prelude.{◌≡◌, ◌↔◌, ◌<◌, ◌∷◌, [], ℕ, List, length, slice_get, Some};
ghost use Rattle.std.specs.List.{Contains};
ghost use Rattle.luau_tree.specs.declared.names.Place.{Place};
ghost use Rattle.luau_run.specs.Signature.{Declared};
ghost use Rattle.luau_run.specs.Program.{Program};
ghost use Rattle.luau_run.specs.ReadModule.{ReadModule};
ghost use Rattle.luau_run.specs.ReadFolder.{IsReadFolder, Requires};
ghost use Rattle.luau_run.specs.Certain.{Certain};
ghost use Rattle.luau_run.specs.runs.Builders.{abs};
ghost use Rattle.rules_certain.specs.Literal.{Literal};
ghost use Rattle.rules_certain.specs.OneNumber.{DeclaresAbs};
ghost use Rattle.rules_certain.specs.Calls.{Written, AllReadAs, program_of};
ghost use Rattle.rules_certain.specs.Reports.{reports_of, AreNumbers, IsWrongLiteral};
ghost use Rattle.rules_certain.specs.Examples.{program_for, reports_for, over_abs, report_at};

/// Over whatever builtins of which `math.abs` is declared as a checked function of one number, and whatever homes the
/// modules have: in no run of any of them is an activation left that reached a report, which is a literal that isn't a
/// number.
#[tactic(auto, using(crate::proofs::RunOf::read_is_certain, crate::proofs::RunOf::certain, crate::proofs::RunOf::one_is_certain))]
pub fn reports_certain()
    ensures readings { (program : Program) (modules : List (List Written)) → DeclaresAbs program.builtins
        → AllReadAs modules program.modules → Certain program (reports_of modules) }
    ensures modules { (builtins : List Declared) (modules : List (List Written)) → DeclaresAbs builtins
        → Certain (program_of builtins modules) (reports_of modules) }
    ensures one_module { (literals : List Literal) → Certain (program_for literals) (reports_for literals) }
{}

/// Over builtins of which `math.abs` is declared so, any modules of calls are read by a read folder.
pub fn calls_have_a_read_folder()
    ensures { (builtins : List Declared) (modules : List (List Written)) → DeclaresAbs builtins
        → IsReadFolder (program_of builtins modules) × AllReadAs modules (program_of builtins modules).modules }
{}

/// What is reported are exactly the literals that aren't numbers, each at its own place.
pub fn reports_are_exact()
    ensures { (modules : List (List Written)) (report : ℕ × Place) → Contains (reports_of modules) report ↔ IsWrongLiteral modules report }
{}

/// Where each literal of a module is a number, a report at any one of them isn't certain, wherever the module stands among
/// others: a run of it is left after it reached the place.
pub fn report_at_number_is_not_certain()
    ensures readings { (modules : List (List Written)) (readings : List ReadModule) (at position : ℕ) (calls : List Written)
        → AllReadAs modules readings → slice_get modules at ≡ Some calls → AreNumbers calls → position < length calls
        → Certain (over_abs readings) (report_at at position) → ⊥ }
    ensures modules { (modules : List (List Written)) (at position : ℕ) (calls : List Written)
        → slice_get modules at ≡ Some calls → AreNumbers calls → position < length calls
        → Certain (program_of (abs ∷ []) modules) (report_at at position) → ⊥ }
{}
