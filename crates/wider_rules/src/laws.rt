//! What follows for every text and every list of tokens.
ghost use Rattle.std.specs.Prelude.{◌≡◌, ◌≤◌, ◌+◌, ℕ, List, Err};
ghost use Rattle.luau_tree.specs.Tree.{Block};
ghost use Rattle.luau_lex.specs.Tokens.{Tok};
ghost use Rattle.luau_grammar.specs.declared.error.ParseError.TheVariants.{Unexpected, UnexpectedEnd};
ghost use Rattle.luau_grammar.specs.Modules.{IsBare, before, up_to};
ghost use Rattle.luau_grammar.specs.Reading.{strictly};
ghost use Rattle.luau_grammar.specs.ReadModules.{module_with, max_depth};

/// Where the parser of a text meets an unexpected token, or an unexpected end, the tokens have no tree
/// at whatever levels they may stand, and on whatever lines arguments may begin.
pub fn what_is_unexpected_has_no_tree_under_any_rules()
    ensures at_a_token { (text : List ℕ) (ts : List Tok) (at : ℕ) →
        module_with (strictly text) max_depth (before ts) ≡ Err (Unexpected at) →
        (deep : ℕ) (b : Block) → IsBare (up_to deep) ts b → ⊥ }
    ensures at_the_end { (text : List ℕ) (ts : List Tok) (at : ℕ) →
        module_with (strictly text) max_depth (before ts) ≡ Err (UnexpectedEnd at) →
        (deep : ℕ) (b : Block) → IsBare (up_to deep) ts b → ⊥ }
{}

/// A tree of tokens at levels up to a number is their tree at levels up to a greater one.
pub fn more_levels_leave_a_tree()
    ensures { (deep more : ℕ) → deep + 2 ≤ more → (ts : List Tok) (b : Block) →
        IsBare (up_to deep) ts b → IsBare (up_to more) ts b }
{}
