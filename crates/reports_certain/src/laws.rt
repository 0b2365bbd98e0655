//! What is certain of a program. The law is the contract of a function that does nothing.

ghost use Rattle.luau_run.specs.Certain.{Certain};
ghost use Rattle.run_frame.specs.Analysis.{Analysis};
ghost use Rattle.run_frame.specs.Fit.{Fit};

/// What the rules report of a program, by an analysis that fits it, is certain: whichever module of the program is run, with
/// whatever steps and answers, no activation that reaches a reported place is left but by a run-time error.
pub fn reports_are_certain()
    ensures { (an : Analysis) → Fit an → Certain an.program an.reports }
{}
