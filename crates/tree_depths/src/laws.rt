//! How deep the trees of tokens are. Each law is the contract of a function that does nothing.
ghost use Rattle.std.specs.Prelude.{◌≡◌, ℕ, ◌+◌, ◌*◌, ◌≤◌, List};
ghost use Rattle.luau_tree.specs.Tree.{Block};
ghost use Rattle.luau_lex.specs.Tokens.{Tok};
ghost use Rattle.luau_grammar.specs.Places.{Rules};
ghost use Rattle.luau_grammar.specs.Modules.{IsBare, strict, up_to};
ghost use Rattle.luau_grammar.specs.Laws.{StandUpTo};
ghost use Rattle.tree_numbers.specs.Numbered.{numbered};
ghost use Rattle.tree_depths.specs.Depths.{of_block, deepest};
ghost use Rattle.tree_depths.specs.Samples.{marked_alias};

/// Where tokens stand at levels up to a limit alone, statements, expressions, bodies and written
/// types stand in one another at most as deep as the limit times a number that is six more. By the
/// rules of the program, whose limit is 200, that is 41,200, and so it is once the tree has its
/// numbers.
pub fn trees_are_no_deeper_than_levels_allow()
    ensures bounded { (rules : Rules) (limit : ℕ) → StandUpTo rules limit → (ts : List Tok) (b : Block) →
        IsBare rules ts b → of_block b ≤ deepest limit }
    ensures strict { (text : List ℕ) (ts : List Tok) (b : Block) → IsBare (strict text) ts b → of_block b ≤ 41200 }
    ensures numbered { (text : List ℕ) (ts : List Tok) (b : Block) →
        IsBare (strict text) ts b → of_block (numbered b) ≤ 41200 }
{}

/// Some trees are nearly as deep: for each limit from two on, some tokens at levels up to it have a
/// tree that is deeper by one than the limit times the number before it.
pub fn marked_types_are_deep()
    ensures { (within : ℕ) → (b : Block) × IsBare (up_to (within + 2)) (marked_alias within) b
        × (of_block b ≡ (within + 2) * (within + 1) + 1) }
{}
