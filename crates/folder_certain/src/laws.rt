//! What is certain of a folder. The law is the contract of a function that does nothing.

ghost use Rattle.std.specs.Prelude.{ℕ, List};
ghost use Rattle.luau_run.specs.Certain.{Certain};
ghost use Rattle.type_decl.specs.Signatures.{Signature};
ghost use Rattle.report_rules.specs.Reports.{places_of_program};
ghost use Rattle.reading_fits.specs.FolderAnalysis.{TreeModule, analysis_of, rules_in, IsFolder};
ghost use Rattle.folder_certain.specs.OfTexts.{IsFolderOfTexts};

/// Of a folder, over whatever table of builtins whose paths have one dot at most, what the rules
/// report is certain: whichever module is run, with whatever steps and answers, no activation that
/// reaches a reported place is left but by a run-time error. The modules are read off their trees,
/// which may be those of texts; the profile refuses none of them, and each requires earlier ones alone.
pub fn folders_are_certain()
    ensures trees { (table : List (List ℕ × Signature)) (modules : List TreeModule)
        → IsFolder table modules → Certain (analysis_of table modules).program (places_of_program (rules_in table modules)) }
    ensures texts { (table : List (List ℕ × Signature)) (texts : List (List ℕ)) (modules : List TreeModule)
        → IsFolderOfTexts table texts modules → Certain (analysis_of table modules).program (places_of_program (rules_in table modules)) }
{}
