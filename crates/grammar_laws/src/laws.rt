//! Where the nodes of a tree stand, for every list of tokens in order.
ghost use Rattle.std.specs.Prelude.{ℕ, List, Option};
ghost use Rattle.luau_tree.specs.Tree.{Block};
ghost use Rattle.luau_lex.specs.declared.token.LexError.{LexError};
ghost use Rattle.luau_lex.specs.Tokens.{Tok};
ghost use Rattle.luau_lex.specs.Lexed.{Lexed};
ghost use Rattle.luau_grammar.specs.Places.{Rules};
ghost use Rattle.luau_grammar.specs.Modules.{IsBare};
ghost use Rattle.grammar_laws.specs.Outlines.{of_block};
ghost use Rattle.grammar_laws.specs.Laws.{AreInOrder, AreNested, HasApartBinds, end_of};

/// The tokens of a text stand in order, up to its end or up to its first fault.
pub fn tokens_of_a_text_are_in_order()
    ensures in_order { (text : List ℕ) (ts : List Tok) (fault : Option LexError) →
        Lexed text ts fault → AreInOrder 0 ts }
{}

/// Each node of a tree stands from the first byte of a token to the last byte of one, nodes that
/// stand in one node lie in its span, and each ends before the next begins.
pub fn nodes_stand_in_one_another()
    ensures nested { (rules : Rules) (ts : List Tok) (b : Block) → AreInOrder 0 ts → IsBare rules ts b →
        AreNested ts 0 (end_of 0 ts) (of_block b) }
{}

/// The names that a tree declares begin at different offsets. A method's `self` is one of them, and
/// begins where the method's name does.
pub fn declared_names_begin_apart()
    ensures apart { (rules : Rules) (ts : List Tok) (b : Block) → AreInOrder 0 ts → IsBare rules ts b →
        HasApartBinds b }
{}
