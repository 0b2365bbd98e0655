//! What holds of folders of calls. The law is the contract of a function that does nothing.

ghost use Rattle.std.specs.Prelude.{◌≡◌, List, false, codes};
ghost use Rattle.luau_scope.specs.Names.{is_one_of};
ghost use Rattle.luau_run.specs.Program.{Program, paths};
ghost use Rattle.luau_run.specs.Certain.{Certain};
ghost use Rattle.rules_certain.specs.OneNumber.{DeclaresAbs};
ghost use Rattle.rules_certain.specs.Calls.{Written, AllReadAs};
ghost use Rattle.rules_certain.specs.Reports.{reports_of};
ghost use Rattle.tree_readings.specs.FromTrees.{IsFolderOfTrees};
ghost use Rattle.call_readings.specs.Calls.{AreTrees};

/// Where the trees of a folder's modules are calls of `math.abs`, which is declared so and `math` isn't
/// declared itself, its modules are read as these calls. So what is reported of them is certain of
/// the folder.
pub fn folders_of_calls_are_read_as_calls()
    ensures read { (program : Program) (modules : List (List Written)) → IsFolderOfTrees program
        → DeclaresAbs program.builtins → is_one_of (paths program) (codes "math") ≡ false
        → AreTrees modules program.modules → AllReadAs modules program.modules }
    ensures certain { (program : Program) (modules : List (List Written)) → IsFolderOfTrees program
        → DeclaresAbs program.builtins → is_one_of (paths program) (codes "math") ≡ false
        → AreTrees modules program.modules → Certain program (reports_of modules) }
{}
