//! What holds of the reading of a module. Each law is the contract of a function that does nothing.

ghost use Rattle.std.specs.Prelude.{◌≡◌, ℕ, true, false, List, Option, Some, map, option_map};
ghost use Rattle.std.specs.List.{filter_map};
ghost use Rattle.luau_values.specs.Value.{Value};
ghost use Rattle.luau_values.specs.Heap.{Heap};
ghost use Rattle.luau_tree.specs.Tree.{Block};
ghost use Rattle.luau_tree.specs.View.{view_block};
ghost use Rattle.luau_scope.specs.declared.reading.Scoped.{Scoped};
ghost use Rattle.luau_scope.specs.Locals.{uses_of, locals_of, requires_of};
ghost use Rattle.luau_run.specs.ValueSet.{ValueSet};
ghost use Rattle.luau_run.specs.Signature.{declaration};
ghost use Rattle.luau_run.specs.Program.{Program, paths};
ghost use Rattle.luau_run.specs.ReadFolder.{are_distinct, IsRead};
ghost use Rattle.luau_run.specs.SyntaxNode.{of_block};
ghost use Rattle.type_arena.specs.Term.{Term};
ghost use Rattle.type_normal.specs.Holds.{holds};
ghost use Rattle.type_decl.specs.Signatures.{Signature};
ghost use Rattle.type_decl.specs.Runs.{builtins_of};
ghost use Rattle.report_rules.specs.Rules.{declared};
ghost use Rattle.module_reading.specs.Names.{Reads};
ghost use Rattle.module_reading.specs.Readings.{reading_of};
ghost use Rattle.module_reading.specs.ReadRules.{rules_of, rules_of_scoped};
ghost use Rattle.module_reading.specs.Apart.{IsApart};
ghost use Rattle.module_reading.specs.Nodes.{expr_number, body_number};
ghost use Rattle.module_reading.specs.Laws.{run_builtin};

/// The rules of a module read its names as its uses and its locals say.
pub fn rules_read_the_names()
    ensures { (paths : List (List ℕ)) (home : ℕ) (block : Block) (leads : List ℕ → Option ℕ) (table : List (List ℕ × Signature)) (import : ℕ → Term)
        → Reads (uses_of paths block) (locals_of paths block) (rules_of paths home block leads table import) }
{}

/// Code has the rules of a module out of what `resolve` gives.
pub fn resolved_modules_have_their_rules()
    ensures { (paths : List (List ℕ)) (scoped : Scoped) (home : ℕ) (leads : List ℕ → Option ℕ) (table : List (List ℕ × Signature)) (import : ℕ → Term)
        → scoped ≡ record {
          «module» = scoped.«module»;
          locals = locals_of paths (view_block scoped.«module».block);
          uses = uses_of paths (view_block scoped.«module».block);
          required = requires_of paths (view_block scoped.«module».block);
        } → rules_of_scoped scoped home leads table import ≡ rules_of paths home (view_block scoped.«module».block) leads table import }
{}

/// Rules say of values what the run says of them: an annotation's set is that of its type, and a builtin is declared to both,
/// in the same words, or to none. A local that always holds a builtin isn't assigned.
pub fn rules_say_what_runs_say()
    ensures annotations { (paths : List (List ℕ)) (home : ℕ) (block : Block) (leads : List ℕ → Option ℕ) (table : List (List ℕ × Signature)) (import : ℕ → Term)
        (function index : ℕ) (heap : Heap) (value : Value)
        → (rules_of paths home block leads table import).reading.annotated function index heap value
        ≡ holds heap value ((rules_of paths home block leads table import).annotation function index) }
    ensures table { (paths : List (List ℕ)) (home : ℕ) (block : Block) (leads : List ℕ → Option ℕ) (table : List (List ℕ × Signature)) (import : ℕ → Term)
        (path : List ℕ) → declaration (builtins_of table) path ≡ option_map run_builtin (declared (rules_of paths home block leads table import) path) }
    ensures unassigned { (paths : List (List ℕ)) (home : ℕ) (block : Block) (leads : List ℕ → Option ℕ) (table : List (List ℕ × Signature)) (import : ℕ → Term)
        (local : ℕ) (path : List ℕ) → (rules_of paths home block leads table import).fixed local ≡ Some path
        → (rules_of paths home block leads table import).assigned local ≡ false }
{}

/// Where a tree's numbers are distinct, so are those of the expressions and of the bodies that run.
pub fn running_nodes_are_distinct()
    ensures expressions { (block : Block) → IsApart block → are_distinct (filter_map expr_number (of_block block)) ≡ true }
    ensures bodies { (block : Block) → IsApart block → are_distinct (filter_map body_number (of_block block)) ≡ true }
{}

/// A module is read over the builtins of a program, where its numbers and its declared names stand apart: each
/// expression stands for what it may mean, each body has its captured locals, and each declaration is that of a local of its
/// own.
pub fn modules_are_read()
    ensures { (program : Program) (home : ℕ) (block : Block) (annotated : (function index : ℕ) → ValueSet) (leads : List ℕ → Option ℕ)
        → IsApart block → IsRead program (reading_of (paths program) home block annotated leads) }
{}
