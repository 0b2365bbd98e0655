//! What holds of trees of texts, and of modules that are read off them. Each law is the contract of a function that does nothing.

ghost use Rattle.std.specs.Prelude.{◌≡◌, ℕ, true, List, Option, None, map};
ghost use Rattle.luau_tree.specs.Tree.{Block};
ghost use Rattle.luau_lex.specs.Tokens.{Tok};
ghost use Rattle.luau_lex.specs.Lexed.{Lexed};
ghost use Rattle.luau_grammar.specs.Places.{Rules};
ghost use Rattle.luau_grammar.specs.Modules.{IsBare};
ghost use Rattle.tree_numbers.specs.Numbered.{numbered};
ghost use Rattle.luau_scope.specs.Refusals.{refusal_of};
ghost use Rattle.annotations.specs.Annotated.{annotated};
ghost use Rattle.luau_run.specs.ValueSet.{ValueSet};
ghost use Rattle.luau_run.specs.Program.{Program, paths};
ghost use Rattle.luau_run.specs.ReadFolder.{IsRead, IsReadFolder};
ghost use Rattle.type_decl.specs.Signatures.{standard_table};
ghost use Rattle.tree_readings.specs.Apart.{StandsApart};
ghost use Rattle.module_reading.specs.Readings.{reading_of};
ghost use Rattle.tree_readings.specs.Paths.{are_paths};
ghost use Rattle.tree_readings.specs.FromTrees.{IsReadOffTree, IsFolderOfTrees};

/// The tree of a text stands apart, by whatever rules on levels and arguments: once it has its
/// numbers, those of its expressions are distinct, and so are those of its bodies and the offsets at
/// which it declares names.
pub fn trees_of_texts_stand_apart()
    ensures { (rules : Rules) (text : List ℕ) (tokens : List Tok) (bare : Block)
        → Lexed text tokens None → IsBare rules tokens bare → StandsApart (numbered bare) }
{}

/// A module is read over the builtins of a program, whose paths have one dot at most, where its tree
/// stands apart: each expression stands for what it may mean, each body has its captured locals, and
/// each declaration is that of a local of its own.
pub fn modules_are_read()
    ensures { (program : Program) (home : ℕ) (block : Block)
        (annotated : (function index : ℕ) → ValueSet) (leads : List ℕ → Option ℕ)
        → are_paths (paths program) ≡ true → StandsApart block
        → IsRead program (reading_of (paths program) home block annotated leads) }
{}

/// So a module whose text has a tree, of which the profile refuses nothing, is read off its tree.
pub fn modules_of_texts_are_read_off_their_trees()
    ensures { (program : Program) (rules : Rules) (text : List ℕ) (tokens : List Tok) (bare : Block)
        (home : ℕ) (leads : List ℕ → Option ℕ) → Lexed text tokens None → IsBare rules tokens bare
        → refusal_of (paths program) (numbered bare) ≡ None → IsReadOffTree program
        (reading_of (paths program) home (numbered bare) (annotated (numbered bare)) leads) }
{}

/// A folder whose modules are read off their own trees is a read folder.
pub fn folders_of_trees_are_read()
    ensures { (program : Program) → IsFolderOfTrees program → IsReadFolder program }
{}

/// Each path of the standard table has one dot at most.
pub fn standard_paths_are_paths()
    ensures { are_paths (map (λ entry. entry.0) standard_table) ≡ true }
{}
