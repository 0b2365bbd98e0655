//! What holds of every file. The law is the contract of a function that does nothing.
ghost use Rattle.std.specs.Prelude.{◌≡◌, ◌≤◌, ℕ, List, None, Ok, length};
ghost use Rattle.luau_tree.specs.Tree.{Block};
ghost use Rattle.luau_tree.specs.declared.position.TheConstants.{MAX_TEXT};
ghost use Rattle.luau_parse.specs.Texts.{tree_of};
ghost use Rattle.luau_scope.specs.Refusals.{refusal_of};
ghost use Rattle.source_files.specs.Names.{text_behind_mark};
ghost use Rattle.source_files.specs.Reading.{Read, reading_of};
ghost use Rattle.source_files.specs.declared.file.SourceFile.{SourceFile};

/// A file that isn't refused has the tree of its text, which is behind its mark and isn't too long, and the profile refuses nothing of
/// it.
pub fn files_that_are_read_have_trees()
    ensures text { (table paths : List (List ℕ)) (file : SourceFile) (text : List ℕ) (block : Block)
        → reading_of table paths file ≡ Read text block → text ≡ text_behind_mark file.text }
    ensures tree { (table paths : List (List ℕ)) (file : SourceFile) (text : List ℕ) (block : Block)
        → reading_of table paths file ≡ Read text block → tree_of text ≡ Ok block }
    ensures accepted { (table paths : List (List ℕ)) (file : SourceFile) (text : List ℕ) (block : Block)
        → reading_of table paths file ≡ Read text block → refusal_of table block ≡ None }
    ensures short { (table paths : List (List ℕ)) (file : SourceFile) (text : List ℕ) (block : Block)
        → reading_of table paths file ≡ Read text block → length text ≤ MAX_TEXT }
{}
