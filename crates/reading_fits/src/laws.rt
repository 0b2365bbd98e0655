//! What the proof of certainty asks of a reading. Each law is the contract of a function that does nothing.

ghost use Rattle.std.specs.Prelude.{◌≡◌, ℕ, List, Option, None};
ghost use Rattle.std.specs.List.{AllByRecursion};
ghost use Rattle.luau_tree.specs.Tree.{Block};
ghost use Rattle.luau_scope.specs.Refusals.{refusal_of};
ghost use Rattle.type_arena.specs.Term.{Term};
ghost use Rattle.type_decl.specs.Signatures.{Signature};
ghost use Rattle.type_decl.specs.Runs.{builtins_of};
ghost use Rattle.report_rules.specs.After.{summary};
ghost use Rattle.run_frame.specs.Analysis.{Analysis};
ghost use Rattle.run_frame.specs.Fit.{IsFitStat, Fit, FitModule};
ghost use Rattle.run_frame.specs.Statements.{stats_of_block};
ghost use Rattle.tree_readings.specs.Apart.{StandsApart};
ghost use Rattle.reading_fits.specs.FolderAnalysis.{TreeModule, analysis_of, IsFolder};
ghost use Rattle.reading_fits.specs.OfFolder.{paths_of, rules_over, HasSummaries, IsOfFolder};

/// Where a module's tree stands apart and the profile refuses nothing of it: each local that a
/// statement assigns is assigned, the locals that one statement declares or assigns at once are
/// distinct, and one that always holds a builtin is declared with it.
pub fn statements_fit()
    ensures { (table : List (List ℕ × Signature)) (home : ℕ) (block : Block)
        (leads : List ℕ → Option ℕ) (import : ℕ → Term)
        → StandsApart block → refusal_of (paths_of table) block ≡ None
        → AllByRecursion (IsFitStat (rules_over table home block leads import)) (stats_of_block block) }
{}

/// So the rules of a module fit its reading, over the builtins that are declared, where its static
/// requires give what the modules that they mean do: what is said above of statements; of each body,
/// whose captured locals are captured and whose parameters are distinct and hold no builtin always;
/// of static requires, each a call of a global; and of annotations and builtins.
pub fn rules_fit_their_readings()
    ensures { (an : Analysis) (module_at home : ℕ) (block : Block) (leads : List ℕ → Option ℕ)
        (table : List (List ℕ × Signature)) (import : ℕ → Term)
        → an.program.builtins ≡ builtins_of table
        → an.rules module_at ≡ rules_over table home block leads import
        → StandsApart block → refusal_of (paths_of table) block ≡ None
        → HasSummaries an (rules_over table home block leads import)
        → an.summary module_at ≡ summary (an.rules module_at)
        → FitModule an module_at (rules_over table home block leads import).reading }
{}

/// An analysis of a folder whose modules are read off their own trees, by their own rules, fits.
pub fn analyses_of_folders_fit()
    ensures { (table : List (List ℕ × Signature)) (an : Analysis) → IsOfFolder table an → Fit an }
{}

/// So the analysis of a folder, made of the trees of its modules, fits.
pub fn folders_fit()
    ensures { (table : List (List ℕ × Signature)) (modules : List TreeModule)
        → IsFolder table modules → Fit (analysis_of table modules) }
{}
