//! That trees of texts stand in the order of the text. The law is the contract of a function that does nothing.

ghost use Rattle.std.specs.Prelude.{ℕ, ◌<◌, ◌^◌, List, None, length};
ghost use Rattle.luau_tree.specs.Tree.{Block};
ghost use Rattle.luau_lex.specs.Tokens.{Tok};
ghost use Rattle.luau_lex.specs.Lexed.{Lexed};
ghost use Rattle.luau_grammar.specs.Places.{Rules};
ghost use Rattle.luau_grammar.specs.Modules.{IsBare};
ghost use Rattle.tree_numbers.specs.Numbered.{numbered};
ghost use Rattle.module_facts.specs.Ordered.{StandsInOrder};

/// The tree of a text of fewer than 2^32 bytes stands in the order of the text, by whatever rules on
/// levels and arguments: once it has its numbers, its expressions are numbered in the order of the
/// text, its declared names begin one behind the other, and there are fewer than 2^32 of them. A
/// text that is parsed has at most 1,048,576 bytes.
pub fn trees_of_texts_stand_in_order()
    ensures { (rules : Rules) (text : List ℕ) (tokens : List Tok) (bare : Block) → length text < 2 ^ 32
        → Lexed text tokens None → IsBare rules tokens bare → StandsInOrder (numbered bare) }
{}
