//! Folders whose reports are certain by the law.

ghost use Rattle.std.specs.Prelude.{◌≡◌};
ghost use Rattle.luau_run.specs.Certain.{Certain};
ghost use Rattle.luau_run.specs.runs.CallOfAbs.{at_literal};
ghost use Rattle.reading_fits.specs.FolderAnalysis.{analysis_of, IsFolder};
ghost use Rattle.reading_fits.specs.Examples.{of_abs};
ghost use Rattle.folder_certain.specs.Examples.{wrong_argument, failing_parameter, at_parameter};

/// The module `math.abs("hi")` makes a folder; its one report stands at the literal, and is certain.
pub fn a_wrong_argument()
    ensures folder { IsFolder of_abs wrong_argument }
    ensures reported { (analysis_of of_abs wrong_argument).reports ≡ at_literal }
    ensures certain { Certain (analysis_of of_abs wrong_argument).program at_literal }
{}

/// And `local function f(x) math.abs(x) x.q = 1 end`: its one report stands at the parameter, and is
/// certain.
pub fn a_failing_parameter()
    ensures folder { IsFolder of_abs failing_parameter }
    ensures reported { (analysis_of of_abs failing_parameter).reports ≡ at_parameter }
    ensures certain { Certain (analysis_of of_abs failing_parameter).program at_parameter }
{}
